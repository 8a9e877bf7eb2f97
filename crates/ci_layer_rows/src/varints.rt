//! Varints. The bytes were worked out by hand, from seven bits a byte.

use ci_base::{get_varint, put_varint};
use std::alloc::Global;
use std::test::Fail;

// The spelling of a number, where it is read again as that number, also with a byte behind it.
fn spelled(alloc: Global, value: u64) -> Result<Option<Vec<u8>>, Fail> {
    let mut bytes = Vec::new(alloc);
    put_varint(&mut bytes, value)?;
    let len = bytes.len();
    bytes.push(0x80)?;
    let read = get_varint(bytes.as_slice());
    bytes.truncate(len);
    Ok(if read == Some((value, len)) {
        Some(bytes)
    } else {
        None
    })
}

#[test]
fn values_are_spelled_and_read_again(rt: HostRuntime) -> Result<(), Fail> {
    let rows: [(u64, &[u8]); 6] = [
        (0, &[0x00]),
        (13, &[0x0d]),
        (127, &[0x7f]),
        (128, &[0x80, 0x01]),
        (300, &[0xac, 0x02]),
        (
            u64::MAX,
            &[0xff, 0xff, 0xff, 0xff, 0xff, 0xff, 0xff, 0xff, 0xff, 0x01],
        ),
    ];
    for (value, spelling) in rows {
        let bytes = spelled(rt.alloc(), value)?.ok_or("read again")?;
        assert_eq!(rt; bytes.as_slice(), spelling, "{value}");
    }
    Ok(())
}

#[test]
fn powers_of_128_are_a_byte_longer(rt: HostRuntime) -> Result<(), Fail> {
    let mut value: u64 = 1;
    for place in 0..9usize {
        let below = spelled(rt.alloc(), value.saturating_sub(1))?.ok_or("read again")?;
        let bytes = spelled(rt.alloc(), value)?.ok_or("read again")?;
        assert_eq!(rt; below.len(), place.max(1), "{place}");
        assert_eq!(rt; bytes.len(), place + 1, "{place}");
        value = value.saturating_mul(128);
    }
    Ok(())
}

#[test]
fn other_spellings_are_not_read(rt: HostRuntime) -> Result<(), Fail> {
    let rows: [&[u8]; 6] = [
        &[],
        &[0x80],
        &[0x80, 0x00],
        &[0xff, 0x80, 0x00],
        &[0xff, 0xff, 0xff, 0xff, 0xff, 0xff, 0xff, 0xff, 0xff, 0x02],
        &[
            0xff, 0xff, 0xff, 0xff, 0xff, 0xff, 0xff, 0xff, 0xff, 0x81, 0x00,
        ],
    ];
    for bytes in rows {
        assert!(rt; get_varint(bytes).is_none());
    }
    Ok(())
}
