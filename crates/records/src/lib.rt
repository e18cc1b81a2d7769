// One record, a kind and a payload, to one answer over the session in lent rooms. Refusals 11 to 13 are decided here, lowest
// first; whatever passes them is a step of the session, and has the step's answer. Every function is safe on rooms, tallies and
// payloads of any content; what it says, it says of each session that a caller keeps.
#![tactic(auto)]

ghost use Rattle.std.specs.Prelude.{◌≡◌, true, List, ◌++◌, ℕ, length};
ghost use Rattle.paper.specs.Sizes.{narrow};
ghost use Rattle.paper.specs.Session.{Session, tally_of};
ghost use Rattle.paper.specs.Steps.{rule, opened, next, outcome};
ghost use Rattle.paper.specs.Runs.{Reached};
ghost use Rattle.paper.specs.Records.{literals as literals_in, record_answer, record_next, record_outcome};
ghost use Rattle.paper.specs.Kinds.{kind_number};
ghost use Rattle.clauses.specs.Lent.{SameFamily};
ghost use Rattle.values.specs.Lent.{bytes, KeptValues};
ghost use Rattle.weights.specs.Lent.{SameWeights};
ghost use Rattle.hints.specs.Hinted.{HeldClauses};
ghost use Rattle.hints.specs.Lent.{given_with};
ghost use Rattle.records.specs.Lent.{lent};
ghost use Rattle.records.specs.Parts.{wish_in, derive_in};
ghost use Rattle.rooms.specs.Held.{Rooms as RoomLists, HeldRules, HeldWishes, HeldDerived, HeldCounters, HeldWeights, Zeros};
ghost use Rattle.rooms.specs.Kept.{Kept};
ghost use Rattle.rooms.specs.Lent.{SameRooms, KeptWork, Keeps};

use clauses::{FamilyRooms, FamilyRoomsMut};
use hints::Given;
use paper::{Answer, Kind, Outcome, Reason, Tally};
use rooms::RoomsMut;
use values::ValueRoomsMut;
use weights::WeightRoomsMut;

fn open_record(tally: Tally, payload: &[u8]) -> Outcome
    ensures { (s : Session) → Reached s → tally ≡ tally_of s
        → result ≡ record_outcome s (record { kind = 1; payload = payload.now }) }
{
    if 0 < tally.variables {
        return openings::refuse(tally, Reason::OutOfTurn);
    }
    if payload.len() != 4 {
        return openings::refuse(tally, Reason::WrongForm);
    }
    openings::open_session(tally, payload::number_of_four(payload, 0))
}

// A rule with as many of the payload's literals as the lent part holds.
fn rule_with(
    tally: Tally,
    rules: &mut FamilyRoomsMut,
    values: &mut ValueRoomsMut,
    payload: &[u8],
    clause: &mut [i32],
) -> Outcome
    ensures same { SameFamily rules.old rules.new }
    ensures kept { KeptValues values.old values.new }
    ensures stepped { (s : Session) → Reached s → tally ≡ tally_of s
        → HeldRules rules.old.literals.now rules.old.ends.now s
        → Zeros narrow (bytes values.old)
        → (result ≡ outcome s (rule (literals_in (length clause.old) payload.now)))
        × HeldRules rules.new.literals.now rules.new.ends.now
        (next s (rule (literals_in (length clause.old) payload.now))) }
{
    payload::copy_literals(payload, 0, clause);
    rules::rule(tally, rules, values, clause)
}

// Of a record's literals, and of its hints, no more are looked at than one more than a step takes: the step refuses either.
fn rule_record(
    tally: Tally,
    rules: &mut FamilyRoomsMut,
    values: &mut ValueRoomsMut,
    payload: &[u8],
) -> Outcome
    ensures same { SameFamily rules.old rules.new }
    ensures kept { KeptValues values.old values.new }
    ensures stepped { (s : Session) → Reached s → tally ≡ tally_of s → opened s ≡ true
        → HeldRules rules.old.literals.now rules.old.ends.now s → Zeros narrow (bytes values.old)
        → (result ≡ record_outcome s (record { kind = 2; payload = payload.now }))
        × HeldRules rules.new.literals.now rules.new.ends.now
        (record_next s (record { kind = 2; payload = payload.now })) }
{
    if payload.len() % 4 != 0 {
        return openings::refuse(tally, Reason::WrongForm);
    }
    let mut clause = [0i32; 65];
    let count = (payload.len() / 4).min(65);
    rule_with(tally, rules, values, payload, &mut clause[..count])
}

// A wish with as many of the payload's literals as the lent part holds. `left` is the room of the remaining weights of wish
// variables.
fn wish_with(
    tally: Tally,
    wishes: &mut FamilyRoomsMut,
    weights: &mut [u32],
    left: &mut [u32],
    values: &mut ValueRoomsMut,
    payload: &[u8],
    clause: &mut [i32],
) -> Outcome
    ensures same { SameFamily wishes.old wishes.new }
    ensures kept { KeptValues values.old values.new }
    ensures stepped { (s : Session) (outputs : List ℕ) → Reached s → tally ≡ tally_of s
        → HeldWishes wishes.old.literals.now wishes.old.ends.now weights.old s → HeldWeights left.old outputs s
        → Zeros narrow (bytes values.old)
        → (result ≡ outcome s (wish_in (length clause.old) payload.now))
        × HeldWishes wishes.new.literals.now wishes.new.ends.now weights.new
        (next s (wish_in (length clause.old) payload.now))
        × HeldWeights left.new outputs (next s (wish_in (length clause.old) payload.now)) }
{
    let weight = payload::number_of_four(payload, 0);
    payload::copy_literals(payload, 4, clause);
    wishes::wish(tally, wishes, weights, left, values, weight, clause)
}

fn wish_record(
    tally: Tally,
    wishes: &mut FamilyRoomsMut,
    weights: &mut [u32],
    left: &mut [u32],
    values: &mut ValueRoomsMut,
    payload: &[u8],
) -> Outcome
    ensures same { SameFamily wishes.old wishes.new }
    ensures kept { KeptValues values.old values.new }
    ensures stepped { (s : Session) (outputs : List ℕ) → Reached s → tally ≡ tally_of s → opened s ≡ true
        → HeldWishes wishes.old.literals.now wishes.old.ends.now weights.old s → HeldWeights left.old outputs s
        → Zeros narrow (bytes values.old)
        → (result ≡ record_outcome s (record { kind = 3; payload = payload.now }))
        × HeldWishes wishes.new.literals.now wishes.new.ends.now weights.new
        (record_next s (record { kind = 3; payload = payload.now }))
        × HeldWeights left.new outputs (record_next s (record { kind = 3; payload = payload.now })) }
{
    if payload.len() < 4 {
        return openings::refuse(tally, Reason::WrongForm);
    }
    if payload.len() % 4 != 0 {
        return openings::refuse(tally, Reason::WrongForm);
    }
    let mut clause = [0i32; 65];
    let count = (payload.len() / 4 - 1).min(65);
    wish_with(
        tally,
        wishes,
        weights,
        left,
        values,
        payload,
        &mut clause[..count],
    )
}

// A derived clause with as many of the payload's literals and hints as the lent parts hold; the hints begin at `start`.
fn derive_with(
    tally: Tally,
    given: Given,
    derived: &mut FamilyRoomsMut,
    values: &mut ValueRoomsMut,
    payload: &[u8],
    start: usize,
    clause: &mut [i32],
    hints: &mut [u64],
) -> Outcome
    ensures same { SameFamily derived.old derived.new }
    ensures kept { KeptValues values.old values.new }
    ensures stepped { (s : Session) → Reached s → tally ≡ tally_of s
        → HeldClauses (given_with given.entry derived.old.literals.now derived.old.ends.now) s
        → Zeros narrow (bytes values.old)
        → (result ≡ outcome s (derive_in (length clause.old) (length hints.old) start payload.now))
        × HeldDerived derived.new.literals.now derived.new.ends.now
        (next s (derive_in (length clause.old) (length hints.old) start payload.now)) }
{
    payload::copy_literals(payload, 4, clause);
    payload::copy_hints(payload, start, hints);
    derived::derive(tally, given, derived, values, clause, hints)
}

fn derive_record(
    tally: Tally,
    given: Given,
    derived: &mut FamilyRoomsMut,
    values: &mut ValueRoomsMut,
    payload: &[u8],
) -> Outcome
    ensures same { SameFamily derived.old derived.new }
    ensures kept { KeptValues values.old values.new }
    ensures stepped { (s : Session) → Reached s → tally ≡ tally_of s → opened s ≡ true
        → HeldClauses (given_with given.entry derived.old.literals.now derived.old.ends.now) s
        → Zeros narrow (bytes values.old)
        → (result ≡ record_outcome s (record { kind = 4; payload = payload.now }))
        × HeldDerived derived.new.literals.now derived.new.ends.now
        (record_next s (record { kind = 4; payload = payload.now })) }
{
    if payload.len() < 4 {
        return openings::refuse(tally, Reason::WrongForm);
    }
    let literals = payload::number_of_four(payload, 0) as usize;
    let start = 4 + 4 * literals;
    if payload.len() < start {
        return openings::refuse(tally, Reason::WrongForm);
    }
    if (payload.len() - start) % 8 != 0 {
        return openings::refuse(tally, Reason::WrongForm);
    }
    let mut clause = [0i32; 65];
    let mut hints = [0u64; 257];
    let count = literals.min(65);
    let hint_count = ((payload.len() - start) / 8).min(257);
    derive_with(
        tally,
        given,
        derived,
        values,
        payload,
        start,
        &mut clause[..count],
        &mut hints[..hint_count],
    )
}

fn core_record(
    tally: Tally,
    derived: FamilyRooms,
    counters: &mut FamilyRoomsMut,
    weights: &mut WeightRoomsMut,
    payload: &[u8],
) -> Outcome
    ensures same { SameFamily counters.old counters.new × SameWeights weights.old weights.new }
    ensures stepped { (s : Session) → Reached s → tally ≡ tally_of s → opened s ≡ true
        → HeldDerived derived.entry.literals.now derived.entry.ends.now s
        → HeldCounters counters.old.literals.now counters.old.ends.now s
        → HeldWeights weights.old.wishes.now weights.old.outputs.now s
        → (result ≡ record_outcome s (record { kind = 5; payload = payload.now }))
        × HeldCounters counters.new.literals.now counters.new.ends.now
        (record_next s (record { kind = 5; payload = payload.now }))
        × HeldWeights weights.new.wishes.now weights.new.outputs.now
        (record_next s (record { kind = 5; payload = payload.now })) }
{
    if payload.len() != 4 {
        return openings::refuse(tally, Reason::WrongForm);
    }
    let number = payload::number_of_four(payload, 0);
    cores::core(tally, derived, counters, weights, number)
}

// The wishes' weights go apart from the two rooms of the wishes: what reads a wish's clause alone, as a hint's reader and the weighing
// do, has no weights.
fn judge_record(
    tally: Tally,
    rules: FamilyRooms,
    wishes: FamilyRooms,
    wish_weights: &[u32],
    payload: &[u8],
) -> Answer
    ensures { (s : Session) → Reached s → tally ≡ tally_of s → opened s ≡ true
        → HeldRules rules.entry.literals.now rules.entry.ends.now s
        → HeldWishes wishes.entry.literals.now wishes.entry.ends.now wish_weights.now s
        → result ≡ record_answer s (record { kind = 6; payload = payload.now }) }
{
    if !payload::arrangement_has_form(tally.variables, payload) {
        return Answer::from(Reason::WrongForm);
    }
    judge::judge(tally, rules, wishes, wish_weights, payload)
}

// A record of a known kind before the opening: no room is touched, and only an opening is taken.
fn answer_closed(tally: Tally, kind: Kind, payload: &[u8]) -> Outcome
    ensures { (s : Session) (rooms : RoomLists) (low high : List ℕ) → Kept tally rooms (low ++ high) s → tally.variables ≡ 0
        → (result ≡ record_outcome s (record { kind = kind_number kind; payload = payload.now }))
        × Kept result.tally rooms (low ++ high) (record_next s (record { kind = kind_number kind; payload = payload.now })) }
{
    match kind {
        Kind::Open => open_record(tally, payload),
        _ => openings::refuse(tally, Reason::OutOfTurn),
    }
}

// A record of a known kind. The rooms stand one by one: each arm lends some of them to read and some to write, and structs of `&mut`
// inside another, made in the same function, are not tracked.
fn answer_kind(
    tally: Tally,
    rules: &mut FamilyRoomsMut,
    wishes: &mut FamilyRoomsMut,
    wish_weights: &mut [u32],
    derived: &mut FamilyRoomsMut,
    counters: &mut FamilyRoomsMut,
    weights: &mut WeightRoomsMut,
    values: &mut ValueRoomsMut,
    kind: Kind,
    payload: &[u8],
) -> Outcome
    ensures same { SameFamily rules.old rules.new × SameFamily wishes.old wishes.new
        × SameFamily derived.old derived.new × SameFamily counters.old counters.new
        × SameWeights weights.old weights.new }
    ensures kept { KeptValues values.old values.new }
    ensures answered { (s : Session)
        → Kept tally (lent rules.old wishes.old wish_weights.old derived.old counters.old weights.old) (bytes values.old) s
        → (result ≡ record_outcome s (record { kind = kind_number kind; payload = payload.now }))
        × Kept result.tally (lent rules.new wishes.new wish_weights.new derived.new counters.new weights.new)
        (bytes values.new) (record_next s (record { kind = kind_number kind; payload = payload.now })) }
{
    if tally.variables == 0 {
        return answer_closed(tally, kind, payload);
    }
    match kind {
        Kind::Open => open_record(tally, payload),
        Kind::Rule => rule_record(tally, rules, values, payload),
        Kind::Wish => { wish_record(tally, wishes, wish_weights, weights.wishes, values, payload) }
        Kind::Derive => {
            let given = Given {
                rules: rules.view(),
                wishes: wishes.view(),
                counters: counters.view(),
            };
            derive_record(tally, given, derived, values, payload)
        }
        Kind::Core => core_record(tally, derived.view(), counters, weights, payload),
        Kind::Judge => Outcome {
            tally,
            answer: judge_record(tally, rules.view(), wishes.view(), wish_weights, payload),
        },
    }
}

// One record. The rooms are arrays, so that no caller can lend one of a wrong size. They stand one by one since they are put together
// here, as the rooms of the families, of the weights and of the values: of several structs made from the fields of one `&mut RoomsMut`
// the prover follows the first alone.
pub fn answer_record<'a>(
    tally: Tally,
    rules: &'a mut [i32; 16384],
    rule_ends: &'a mut [u32; 2048],
    wishes: &'a mut [i32; 8192],
    wish_ends: &'a mut [u32; 512],
    wish_weights: &mut [u32; 512],
    derived: &'a mut [i32; 16384],
    derived_ends: &'a mut [u32; 4096],
    inputs: &'a mut [i32; 8192],
    counter_ends: &'a mut [u32; 128],
    left: &'a mut [u32; 512],
    outputs: &'a mut [u32; 8192],
    low: &'a mut [u8; 4001],
    high: &'a mut [u8; 65536],
    kind: u32,
    payload: &[u8],
) -> Outcome
    ensures kept { (low.new ≡ low.old) × (high.new ≡ high.old) }
    ensures answered { (s : Session)
        → Kept tally
        (record {
          rules = rules.old;
          rule_ends = rule_ends.old;
          wishes = wishes.old;
          wish_ends = wish_ends.old;
          wish_weights = wish_weights.old;
          derived = derived.old;
          derived_ends = derived_ends.old;
          inputs = inputs.old;
          counter_ends = counter_ends.old;
          left = left.old;
          outputs = outputs.old;
        })
        (low.old ++ high.old) s
        → (result ≡ record_outcome s (record { kind = kind; payload = payload.now }))
        × Kept result.tally
        (record {
          rules = rules.new;
          rule_ends = rule_ends.new;
          wishes = wishes.new;
          wish_ends = wish_ends.new;
          wish_weights = wish_weights.new;
          derived = derived.new;
          derived_ends = derived_ends.new;
          inputs = inputs.new;
          counter_ends = counter_ends.new;
          left = left.new;
          outputs = outputs.new;
        })
        (low.new ++ high.new) (record_next s (record { kind = kind; payload = payload.now })) }
{
    let kind = match Kind::try_from(kind) {
        Ok(kind) => kind,
        Err(reason) => return openings::refuse(tally, reason),
    };
    let mut rules = FamilyRoomsMut {
        literals: rules,
        ends: rule_ends,
    };
    let mut wishes = FamilyRoomsMut {
        literals: wishes,
        ends: wish_ends,
    };
    let mut derived = FamilyRoomsMut {
        literals: derived,
        ends: derived_ends,
    };
    let mut counters = FamilyRoomsMut {
        literals: inputs,
        ends: counter_ends,
    };
    let mut weights = WeightRoomsMut {
        wishes: left,
        outputs,
    };
    let mut values = ValueRoomsMut { low, high };
    answer_kind(
        tally,
        &mut rules,
        &mut wishes,
        wish_weights,
        &mut derived,
        &mut counters,
        &mut weights,
        &mut values,
        kind,
        payload,
    )
}

// One record, over the rooms as one value. Kind and payload stand apart, since each is needed by itself at once: a struct of both would
// be made only to be taken apart.
pub fn answer(tally: Tally, rooms: &mut RoomsMut, kind: u32, payload: &[u8]) -> Outcome
    ensures same { SameRooms rooms.old rooms.new }
    ensures kept { KeptWork rooms.old rooms.new }
    ensures answered { (s : Session) → Keeps tally rooms.old s
        → (result ≡ record_outcome s (record { kind = kind; payload = payload.now }))
        × Keeps result.tally rooms.new (record_next s (record { kind = kind; payload = payload.now })) }
{
    answer_record(
        tally,
        rooms.rules,
        rooms.rule_ends,
        rooms.wishes,
        rooms.wish_ends,
        rooms.wish_weights,
        rooms.derived,
        rooms.derived_ends,
        rooms.inputs,
        rooms.counter_ends,
        rooms.left,
        rooms.outputs,
        rooms.low,
        rooms.high,
        kind,
        payload,
    )
}
