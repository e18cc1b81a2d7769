// The two tables: how many variables and how many clauses a counter has, by its number of inputs. They are statics, so that a look-up
// reads an entry where it stands: a constant would be copied at each.
#![tactic(auto)]

ghost use Rattle.std.specs.Prelude.{◌≡◌, ℕ, ◌<◌, ◌≤◌};
ghost use Rattle.paper.specs.Counters.{variables_of, clauses_of};
ghost use Rattle.tables.specs.Tables.{table_of};

pub static VARIABLES: [u16; 65] = [
    0, 0, 2, 5, 8, 12, 16, 20, 24, 29, 34, 39, 44, 49, 54, 59, 64, 70, 76, 82, 88, 94, 100, 106,
    112, 118, 124, 130, 136, 142, 148, 154, 160, 167, 174, 181, 188, 195, 202, 209, 216, 223, 230,
    237, 244, 251, 258, 265, 272, 279, 286, 293, 300, 307, 314, 321, 328, 335, 342, 349, 356, 363,
    370, 377, 384,
];

pub static CLAUSES: [u16; 65] = [
    0, 0, 3, 8, 14, 22, 31, 41, 52, 65, 79, 94, 110, 127, 145, 164, 184, 206, 229, 253, 278, 304,
    331, 359, 388, 418, 449, 481, 514, 548, 583, 619, 656, 695, 735, 776, 818, 861, 905, 950, 996,
    1043, 1091, 1140, 1190, 1241, 1293, 1346, 1400, 1455, 1511, 1568, 1626, 1685, 1745, 1806, 1868,
    1931, 1995, 2060, 2126, 2193, 2261, 2330, 2400,
];

// An entry of a table, whatever it is a table of.
pub fn entry_of(table: &[u16; 65], inputs: usize) -> usize
    ensures { (count : ℕ → ℕ) → table.now ≡ table_of count
        → (inputs ≤ 64 → result ≡ count inputs) × (64 < inputs → result ≡ 0) }
{
    usize::from(table.get(inputs).copied().unwrap_or(0))
}

// This and `clauses_of` are two names for one body, since the description has two tables and docs/PROMISES.md names both.
pub fn variables_of(inputs: usize) -> usize
    ensures { (inputs ≤ 64 → result ≡ variables_of inputs) × (64 < inputs → result ≡ 0) }
{
    entry_of(&VARIABLES, inputs)
}

pub fn clauses_of(inputs: usize) -> usize
    ensures { (inputs ≤ 64 → result ≡ clauses_of inputs) × (64 < inputs → result ≡ 0) }
{
    entry_of(&CLAUSES, inputs)
}
