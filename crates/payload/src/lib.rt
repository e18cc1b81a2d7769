// The numbers in the bytes of a record's payload: little-endian, signed and unsigned, and the form of an arrangement. Every
// function is safe on bytes of any length and at any place; bytes that are missing count as zeros, as they do on paper.
#![tactic(auto)]

ghost use Rattle.std.specs.Prelude.{◌≡◌, List, [], ◌∷◌, ℕ, suc, ◌++◌, ◌+◌, ◌*◌, ◌≤◌, ◌<◌, length, take, drop, replicate, refl};
ghost use Rattle.std.proofs.Common.{rules};
ghost use Rattle.paper.specs.Records.{number, numbers_in, signed, literals, arrangement_form};
ghost use Rattle.payload.specs.Items.{padded_number, padded_literal};

// What stands in bytes in a row: `several` says what so many of them are, and `value` what the first one is.
trait Item: Copy {
    ghost SIZE: { ℕ };

    ghost value: { List ℕ → Self };

    ghost several: { ℕ → List ℕ → List Self };

    // How many bytes an item takes.
    const SIZE: usize;

    // The item at the front of some bytes, all of which are there: one load, with no test between the bytes.
    fn read(bytes: &[u8]) -> Self
        requires { SIZE ≤ length bytes.now }
        ensures { result ≡ value bytes.now };

    ghost size_bound: { (0 < SIZE) × (SIZE ≤ 8) };

    ghost none: { (bytes : List ℕ) → several 0 bytes ≡ [] };

    ghost one_more: { (count : ℕ) (bytes : List ℕ) → several (suc count) bytes ≡ value bytes ∷ several count (drop SIZE bytes) };

    // Bytes that are missing count as zeros.
    ghost padded: { (bytes : List ℕ) (count : ℕ) → value (bytes ++ replicate count 0) ≡ value bytes };
}

impl Item for u16 {
    ghost SIZE = { 2 };

    ghost value = { λ bytes. number (take 2 bytes) };

    ghost several = { numbers_in 2 };

    const SIZE: usize = 2;

    fn read(bytes: &[u8]) -> u16 {
        u16::from_le_bytes([bytes[0], bytes[1]])
    }

    ghost size_bound = { Prim.search rules };

    ghost none = { λ bytes. refl };

    ghost one_more = { λ count bytes. refl };

    ghost padded = { padded_number 2 };
}

impl Item for u32 {
    ghost SIZE = { 4 };

    ghost value = { λ bytes. number (take 4 bytes) };

    ghost several = { numbers_in 4 };

    const SIZE: usize = 4;

    fn read(bytes: &[u8]) -> u32 {
        u32::from_le_bytes([bytes[0], bytes[1], bytes[2], bytes[3]])
    }

    ghost size_bound = { Prim.search rules };

    ghost none = { λ bytes. refl };

    ghost one_more = { λ count bytes. refl };

    ghost padded = { padded_number 4 };
}

impl Item for u64 {
    ghost SIZE = { 8 };

    ghost value = { λ bytes. number (take 8 bytes) };

    ghost several = { numbers_in 8 };

    const SIZE: usize = 8;

    fn read(bytes: &[u8]) -> u64 {
        u64::from_le_bytes([
            bytes[0], bytes[1], bytes[2], bytes[3], bytes[4], bytes[5], bytes[6], bytes[7],
        ])
    }

    ghost size_bound = { Prim.search rules };

    ghost none = { λ bytes. refl };

    ghost one_more = { λ count bytes. refl };

    ghost padded = { padded_number 8 };
}

impl Item for i32 {
    ghost SIZE = { 4 };

    ghost value = { λ bytes. signed (number (take 4 bytes)) };

    ghost several = { literals };

    const SIZE: usize = 4;

    fn read(bytes: &[u8]) -> i32 {
        of_bits(<u32 as Item>::read(bytes))
    }

    ghost size_bound = { Prim.search rules };

    ghost none = { λ bytes. refl };

    ghost one_more = { λ count bytes. refl };

    ghost padded = { padded_literal };
}

// A public function whose promise may not change (docs/LANDINGS.md names it): else `cast_signed` would stand in its place.
pub fn of_bits(bits: u32) -> i32
    ensures { result ≡ signed bits }
{
    bits.cast_signed()
}

// What stands from a place on: nothing past the end. A part has places of its own: no sum of places is made, and so none can wrap.
pub fn rest(bytes: &[u8], at: usize) -> &[u8]
    ensures { result.now ≡ drop at bytes.now }
{
    &bytes[at.min(bytes.len())..]
}

// The item at the front of some bytes, any of which may be missing.
fn first<T: Item>(bytes: &[u8]) -> T
    ensures { result ≡ T.value bytes.now }
{
    if T::SIZE <= bytes.len() {
        return T::read(bytes);
    }
    let mut padded = [0; 8];
    padded[..bytes.len()].copy_from_slice(bytes);
    T::read(&padded)
}

// This, `number_of_four` and `number_of_eight` are three names over one body, `first`, since docs/PROMISES.md names each.
pub fn number_of_two(bytes: &[u8], at: usize) -> u32
    ensures { (result ≡ number (take 2 (drop at bytes.now))) × (result < 65536) }
{
    u32::from(first::<u16>(rest(bytes, at)))
}

pub fn number_of_four(bytes: &[u8], at: usize) -> u32
    ensures { result ≡ number (take 4 (drop at bytes.now)) }
{
    first(rest(bytes, at))
}

pub fn number_of_eight(bytes: &[u8], at: usize) -> u64
    ensures { result ≡ number (take 8 (drop at bytes.now)) }
{
    first(rest(bytes, at))
}

// Each item stands whole, so that nothing is asked in the loop.
fn copy_whole<T: Item>(bytes: &[u8], items: &mut [T])
    requires { T.SIZE * length items.old ≤ length bytes.now }
    ensures { items.new ≡ T.several (length items.old) bytes.now }
{
    let mut left = bytes;
    for item in items.iter_mut() {
        *item = T::read(left);
        left = &left[T::SIZE..];
    }
}

fn copy_cut<T: Item>(bytes: &[u8], items: &mut [T])
    ensures { items.new ≡ T.several (length items.old) bytes.now }
{
    let mut left = bytes;
    for item in items.iter_mut() {
        *item = first(left);
        left = rest(left, T::SIZE);
    }
}

// As many items as the lent part holds.
fn copy_items<T: Item>(bytes: &[u8], items: &mut [T])
    ensures { items.new ≡ T.several (length items.old) bytes.now }
{
    if items.len() <= bytes.len() / T::SIZE {
        copy_whole(bytes, items);
    } else {
        copy_cut(bytes, items);
    }
}

// This and `copy_hints` are two names for one body, since docs/PROMISES.md names both.
pub fn copy_literals(bytes: &[u8], at: usize, clause: &mut [i32])
    ensures { clause.new ≡ literals (length clause.old) (drop at bytes.now) }
{
    copy_items(rest(bytes, at), clause);
}

pub fn copy_hints(bytes: &[u8], at: usize, words: &mut [u64])
    ensures { words.new ≡ numbers_in 8 (length words.old) (drop at bytes.now) }
{
    copy_items(rest(bytes, at), words);
}

// As few bytes as hold a bit for each variable, and the spare bits of the last one 0.
pub fn arrangement_has_form(variables: u32, payload: &[u8]) -> bool
    ensures { result ≡ arrangement_form variables payload.now }
{
    let last = payload.get((variables / 8) as usize).copied().unwrap_or(0);
    payload.len() == variables.div_ceil(8) as usize && last >> (variables % 8) == 0
}
