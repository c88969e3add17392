// Files that are empty, whole or damaged.
use facts::reader::Reader;
use facts::record::Record;
use rows::row::Row;

// What a reading comes to; of a refusal, its number and its offset.
fn read(reader: &mut Reader) -> Result<Option<Record>, (u32, usize)> {
    reader
        .next_record()
        .map_err(|fault| (fault.number(), fault.offset()))
}

#[test]
fn empty_file(rt: HostRuntime) {
    assert_eq!(rt; read(&mut Reader::new(b"")), Ok(None));
}

#[test]
fn lone_byte(rt: HostRuntime) {
    assert_eq!(rt; read(&mut Reader::new(b"L")), Err((9, 0)));
}

#[test]
fn unknown_mark(rt: HostRuntime) {
    assert_eq!(rt; read(&mut Reader::new(b"XX")), Err((8, 0)));
}

#[test]
fn codes_cut_short(rt: HostRuntime) {
    assert_eq!(rt; read(&mut Reader::new(b"CE\x01\x00\x02")), Err((9, 0)));
}

// After a record the offset is that of the next mark, and a refusal is given again and again.
#[test]
fn stays_after_refusal(rt: HostRuntime) {
    let mut reader = Reader::new(b"UR\x05\x01XY");
    let first = Record {
        offset: 0,
        row: Row::new(1, 261, 0, 0),
    };
    assert_eq!(rt; read(&mut reader), Ok(Some(first)));
    for _ in 0..3 {
        assert_eq!(rt; read(&mut reader), Err((8, 4)));
    }
}
