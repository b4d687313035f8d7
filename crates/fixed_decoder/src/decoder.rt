// The field in front of a row back into its slot of the sheet, once a reader has found no fault in it.
ghost use Rattle.std.specs.Prelude.{◌≡◌, true, [], ◌∷◌, ◌+◌, ◌≤◌, length, take, drop};
ghost use Rattle.std.proofs.lemmas.List.Edits.{sets};
ghost use Rattle.format.specs.Kinds.{Fixed, bool, fixed, shape, value_bytes};
ghost use Rattle.format.specs.Key.{parts_unkey, unkey};
ghost use Rattle.format.specs.Field.{directed};
ghost use Rattle.format.specs.Read.{Good, read_field, read_fixed, slot_read};
ghost use Rattle.format.specs.Cleared.{fixed_slot, is_true};
ghost use Rattle.fixed_decoder.specs.Bytewise.{bytewise};

use column_facts::{null_lead, width};
use format::{Kind, SortOptions};
use number::{Coding, directed};
use number_reader::{take_number, take_words};
use runs::copy_bytes;

// A bool: the byte of true, inverted under descending; a null has 00.
pub fn decode_boolean(row: &[u8], options: SortOptions) -> bool
    requires { Good (read_fixed bool options row.now) }
    ensures { result ≡ is_true (slot_read (read_fixed bool options row.now)) }
{
    let byte = row[1];
    byte == directed(options.descending, 1)
}

// Days and milliseconds, from a row whose lead byte is 01.
fn decode_day_time(row: &[u8], descending: bool, out: &mut [u8], at: usize)
    requires { (9 ≤ length row.now) × (at + 8 ≤ length out.old) }
    ensures { out.new ≡ sets out.old at
        (parts_unkey (4 ∷ 4 ∷ []) (directed descending (take 8 (drop 1 row.now)))) }
{
    take_number::<u32>(out, at, row, 1, Coding::Signed, descending);
    take_number::<u32>(out, at + 4, row, 5, Coding::Signed, descending);
}

// Fixed binary, as it stands, from a row whose lead byte is 01.
fn decode_fixed_size_binary(row: &[u8], width: usize, descending: bool, out: &mut [u8], at: usize)
    requires { (1 + width ≤ length row.now) × (at + width ≤ length out.old) }
    ensures { out.new ≡ sets out.old at (directed descending (take width (drop 1 row.now))) }
{
    copy_bytes(&mut out[at..at + width], &row[1..1 + width], descending);
}

// A bytewise kind, from a row whose lead byte is 01.
fn decode_value(row: &[u8], kind: Kind, descending: bool, out: &mut [u8], at: usize)
    requires kind_value { bytewise kind ≡ true }
    requires kind_in_bounds { 1 + value_bytes kind ≤ length row.now }
    requires kind_in_bounds_2 { at + value_bytes kind ≤ length out.old }
    ensures { (k : Fixed) → shape kind ≡ fixed k
        → out.new ≡ sets out.old at (unkey k (directed descending (take (value_bytes kind) (drop 1 row.now)))) }
{
    match kind {
        Kind::I8 => take_number::<u8>(out, at, row, 1, Coding::Signed, descending),
        Kind::U8 => take_number::<u8>(out, at, row, 1, Coding::Unsigned, descending),
        Kind::DayTime => decode_day_time(row, descending, out, at),
        Kind::FixedBinary(w) => decode_fixed_size_binary(row, w as usize, descending, out, at),
        Kind::I128 => take_words(out, at, row, 1, 2, descending),
        Kind::I256 => take_words(out, at, row, 1, 4, descending),
        // Not handed.
        _ => {}
    }
}

// A bytewise kind: the value's bytes in the sheet, zeros for a null.
pub fn decode(row: &[u8], kind: Kind, options: SortOptions, out: &mut [u8], at: usize)
    requires kind_value { bytewise kind ≡ true }
    requires good { Good (read_field (shape kind) options row.now) }
    requires kind_in_bounds { at + value_bytes kind ≤ length out.old }
    ensures { out.new ≡ sets out.old at
        (fixed_slot (value_bytes kind) (slot_read (read_field (shape kind) options row.now))) }
{
    let lead = row[0];
    if null_lead(lead, options) {
        out[at..at + width(kind)].fill(0);
        return;
    }
    decode_value(row, kind, options.descending, out, at)
}
