// Two rows of checked sheets under one list, compared straight from the values: no row is made.
#![tactic(auto)]

ghost use Rattle.std.specs.Prelude.{◌≡◌, ◌≤◌, length};
ghost use Rattle.std.specs.Ordering.{ordering_index};
ghost use Rattle.std.proofs.lemmas.List.Edits.{sets};
ghost use Rattle.format.specs.Limits.{max_columns, max_rows};
ghost use Rattle.format.specs.Schemas.{cols_of};
ghost use Rattle.format.specs.CompareSheets.{pair_count, pair_ranks};
ghost use Rattle.sheet_reader.specs.Sheets.{Known};
ghost use Rattle.row_pairs.specs.Pairs.{pair_rows, InSheets};

use format::Schema;
use row_pairs::{pair_count, row_at};
use sheet_reader::sheet::Sheeted;
use slot_order::order_slots;
use std::cmp::Ordering;

// 0, 1 or 2 for below, equal or above.
fn rank(order: Ordering) -> u8
    ensures { result ≡ ordering_index order }
{
    match order {
        Ordering::Less => 0,
        Ordering::Equal => 1,
        Ordering::Greater => 2,
    }
}

// For each pair of rows of two sheets, whose columns are known by their facts, below, equal or above: up to the first slots that differ.
pub fn write_orders(
    schema: Schema,
    n: usize,
    sheet: &[u8],
    known: &Sheeted,
    m: usize,
    other: &[u8],
    other_known: &Sheeted,
    numbers: &[u64],
    bytes: &[u8],
    answers: &mut [u8],
)
    requires n_le_max_rows { (n ≤ max_rows) × (m ≤ max_rows) }
    requires count_le_max_columns { schema.count ≤ max_columns }
    requires known { Known n (cols_of schema) sheet.now known.now.facts }
    requires known_2 { Known m (cols_of schema) other.now other_known.now.facts }
    requires in_sheets { InSheets n m (pair_rows numbers.now bytes.now) }
    requires bytes_in_bounds { pair_count (pair_rows numbers.now bytes.now) ≤ length answers.old }
    ensures { answers.new ≡ sets answers.old 0
        (pair_ranks (cols_of schema) n sheet.now m other.now (pair_rows numbers.now bytes.now)) }
{
    let count = schema.count;
    let pairs = pair_count(numbers, bytes);
    for k in 0..pairs {
        let i = row_at(numbers, bytes, 2 * k) as usize;
        let j = row_at(numbers, bytes, 2 * k + 1) as usize;
        let mut found = Ordering::Equal;
        for c in 0..count {
            let f = known.facts[c];
            let g = other_known.facts[c];
            let base = f.base;
            let start = g.base;
            found = order_slots(f.column, n, &sheet[base..], i, m, &other[start..], j);
            // The first difference decides.
            if found.is_ne() {
                break;
            }
        }
        answers[k] = rank(found);
    }
}
