// Document 01's cases to run, through the public entries. Each line is a case, its four numbers, and the whole of the lent buffers,
// so that what is past the written part is seen to stay.
use crate::show::{end_line, show, show_bytes, show_offsets};
use std::io;
use std::io::Write;

// One column of variable bytes, nulls first: the sheet encoded.
fn encode_names<W: Write>(out: &mut W, name: &str, n: u64, sheet: &[u8]) -> io::Result<()> {
    let list = [16u8, 2];
    // Arrays, here and below: the whole of each buffer is shown, at its fixed size.
    let mut rows = [0xEEu8; 20];
    let mut offsets = [9u64; 4];
    let answer = station::encode::encode(&list, n, sheet, &mut rows, &mut offsets);
    show(out, name, answer)?;
    show_offsets(out, &offsets)?;
    show_bytes(out, &rows)?;
    end_line(out)
}

// The longest value, 65,535 bytes, encoded; its row decoded with too little room; and that row with one byte more, its last block full.
fn run_longest<W: Write>(out: &mut W) -> io::Result<()> {
    let list = [16u8, 2];
    let mut sheet = [0x61u8; 65544];
    sheet[0] = 1;
    sheet[1] = 0;
    sheet[2] = 0;
    sheet[3] = 0;
    sheet[4] = 0;
    sheet[5] = 255;
    sheet[6] = 255;
    sheet[7] = 0;
    sheet[8] = 0;
    let mut rows = [0u8; 67588];
    let mut offsets = [9u64; 2];
    let answer = station::encode::encode(&list, 1, &sheet, &mut rows, &mut offsets);
    show(out, "encode 65535 bytes:", answer)?;
    show_offsets(out, &offsets)?;
    show_bytes(out, &rows[67587..])?;
    end_line(out)?;
    decode_name(out, "decode 65535 bytes:", &rows)?;
    rows[67586] = 0x61;
    rows[67587] = 32;
    decode_name(out, "decode 65536 bytes:", &rows)
}

// One row of variable bytes, decoded.
fn decode_name<W: Write>(out: &mut W, name: &str, row: &[u8]) -> io::Result<()> {
    let list = [16u8, 2];
    let offsets = [0u64, row.len() as u64];
    let mut sheet = [0xEEu8; 16];
    let answer = station::decode::decode(&list, 1, row, &offsets, &mut sheet);
    show(out, name, answer)?;
    show_bytes(out, &sheet)?;
    end_line(out)
}

pub fn run<W: Write>(out: &mut W) -> io::Result<()> {
    encode_names(
        out,
        "encode a, null:",
        2,
        b"\x01\0\0\0\0\x01\0\0\0\x01\0\0\0a",
    )?;
    encode_names(out, "encode 8 bytes:", 1, b"\x01\0\0\0\0\x08\0\0\0abcdefgh")?;
    encode_names(
        out,
        "encode 9 bytes:",
        1,
        b"\x01\0\0\0\0\x09\0\0\0abcdefghi",
    )?;
    run_longest(out)?;
    encode_names(out, "encode 65536 bytes:", 1, b"\x01\0\0\0\0\0\0\x01\0")?;
    decode_name(out, "decode a:", b"\x02a\0\0\0\0\0\0\0\x01")?;
    decode_name(out, "decode null:", b"\0")?;
    decode_name(out, "decode 03:", b"\x03")?;
    decode_name(out, "decode 02:", b"\x02")?;
    decode_name(out, "decode end 09:", b"\x02a\0\0\0\0\0\0\0\x09")?;
    decode_name(out, "decode end 00:", b"\x02a\0\0\0\0\0\0\0\0")?;
    decode_name(out, "decode padding:", b"\x02a\0\0\0\0\0\0\x01\x01")
}
