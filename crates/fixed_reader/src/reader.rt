// The field in front of a row: what it is, how long, or what is wrong with it. Total on any bytes.
ghost use Rattle.std.specs.Prelude.{◌≡◌, false, ◌+◌, ◌<◌, ◌≤◌, length, take, drop};
ghost use Rattle.format.specs.Kinds.{Fixed, bool, float};
ghost use Rattle.format.specs.Key.{float_unkey};
ghost use Rattle.format.specs.Fold.{folds, is_folded};
ghost use Rattle.format.specs.Field.{directed};
ghost use Rattle.format.specs.Read.{field_read, read_fixed, read_null};
ghost use Rattle.basics.specs.Wide.{WideShape};
ghost use Rattle.number_reader.specs.Words.{WordWidth};

use column_facts::null_lead;
use format::{FieldFault, FieldRead, RowFault, SortOptions};
use number::directed;
use number_reader::is_folded;

// After the null byte: zeros, as many as a value has bytes. `0 < length row.now`: of a slice that is not empty a type is no plainer.
fn read_null(row: &[u8], width: usize) -> Result<FieldRead, FieldFault>
    requires { 0 < length row.now }
    ensures { result ≡ field_read row.now (read_null width (drop 1 row.now)) }
{
    let room = row.len() - 1;
    if room < width {
        return Err(FieldFault(RowFault::Cut, 0));
    }
    for i in 0..width {
        if row[1 + i] != 0 {
            return Err(FieldFault(RowFault::NullRest, room - i));
        }
    }
    Ok(FieldRead {
        length: 1 + width,
        value: None,
    })
}

// Every fixed kind but bool, by its count of value bytes: all of them are allowed, but where a column folds.
pub fn read(row: &[u8], width: usize, options: SortOptions) -> Result<FieldRead, FieldFault>
    ensures { (k : Fixed) → WideShape width k → folds k options.fold ≡ false
        → result ≡ field_read row.now (read_fixed k options row.now) }
{
    let len = row.len();
    if len == 0 {
        return Err(FieldFault(RowFault::Cut, 0));
    }
    let lead = row[0];
    if null_lead(lead, options) {
        return read_null(row, width);
    }
    if lead != 1 {
        return Err(FieldFault(RowFault::Lead, len));
    }
    if len - 1 < width {
        return Err(FieldFault(RowFault::Cut, 0));
    }
    Ok(FieldRead {
        length: 1 + width,
        value: Some(width),
    })
}

// A bool: as one byte, and that byte is 00 or 01.
pub fn read_boolean(row: &[u8], options: SortOptions) -> Result<FieldRead, FieldFault>
    ensures { result ≡ field_read row.now (read_fixed bool options row.now) }
{
    let field = read(row, 1, options)?;
    if let Some(_) = field.value {
        if 1 < directed(options.descending, row[1]) {
            return Err(FieldFault(RowFault::BoolByte, row.len() - 1));
        }
    }
    Ok(field)
}

// Whether the float after a lead byte may stand in its column: any where the column does not fold, and else a folded one.
// A width and no type, here and in `read_float`: a kind hands its width, and here it becomes a type.
fn may_stand(row: &[u8], width: usize, options: SortOptions) -> bool
    requires word_width { WordWidth width }
    requires width_in_bounds { 1 + width ≤ length row.now }
    ensures { result ≡ is_folded (float width) options.fold (float_unkey (directed options.descending (take width (drop 1 row.now)))) }
{
    if !options.fold {
        return true;
    }
    let descending = options.descending;
    match width {
        2 => is_folded::<u16>(row, 1, descending),
        4 => is_folded::<u32>(row, 1, descending),
        _ => is_folded::<u64>(row, 1, descending),
    }
}

// A float: as its bytes, which are those of a folded one where the column folds.
pub fn read_float(row: &[u8], width: usize, options: SortOptions) -> Result<FieldRead, FieldFault>
    requires { WordWidth width }
    ensures { result ≡ field_read row.now (read_fixed (float width) options row.now) }
{
    let field = read(row, width, options)?;
    if let Some(_) = field.value {
        if !may_stand(row, width, options) {
            return Err(FieldFault(RowFault::Unfolded, row.len() - 1));
        }
    }
    Ok(field)
}
