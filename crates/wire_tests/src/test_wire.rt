//! The wire form.
use proto_wire::{
    Member, fields, join_occurrences, last_text, last_uint, occurrences, put_bytes, put_number,
    put_text, put_uint, read_member, read_repeated, read_singular, repeated, repeated_copies,
    texts,
};
use std::test::Fail;
use xc_base::List;

#[test]
fn the_values_of_a_number_are_found(rt: HostRuntime) -> Result<(), Fail> {
    let list = fields(rt.alloc(), b"\x12\x01\x61\x08\x96\x01\x12\x01\x62")?;
    assert!(rt; last_uint(&list, 1) == 150);
    assert!(rt; last_text(rt.alloc(), &list, 2).is_ok());
    assert!(rt; join_occurrences(rt.alloc(), &list, 2).is_ok());
    assert!(rt; repeated(rt.alloc(), &list, 2).is_ok());
    assert!(rt; repeated_copies(rt.alloc(), &list, 2).is_ok());
    assert!(rt; texts(rt.alloc(), &list, 2).is_ok());
    Ok(())
}

#[test]
fn messages_in_messages_are_read(rt: HostRuntime) -> Result<(), Fail> {
    let list = fields(rt.alloc(), b"\x0a\x00\x12\x02\x08\x05\x0a\x02\x08\x01")?;
    assert!(rt; read_singular::<u32>(rt.alloc(), &list, 2).is_ok());
    assert!(rt; read_singular::<bool>(rt.alloc(), &list, 1).is_ok());
    assert!(rt; read_repeated::<u32>(rt.alloc(), &list, 1).is_ok());
    assert!(rt; read_member::<u32>(rt.alloc(), &list, 1).is_ok());
    assert!(rt; occurrences(rt.alloc(), &list, &[Member::Bytes(1)]).is_ok());
    Ok(())
}

#[test]
fn fields_are_written(rt: HostRuntime) {
    let mut out = List::new(rt.alloc());
    assert!(rt; put_uint(rt.alloc(), &mut out, 1, 300).is_ok());
    assert!(rt; put_bytes(rt.alloc(), &mut out, 2, b"a").is_ok());
    assert!(rt; put_number(rt.alloc(), &mut out, 3, 1).is_ok());
    assert!(rt; put_text(rt.alloc(), &mut out, 4, "b").is_ok());
    assert!(rt; out.as_slice() == b"\x08\xac\x02\x12\x01\x61\x18\x01\x22\x01\x62".as_slice());
}
