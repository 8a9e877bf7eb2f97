//! A script of calls on a disk. A call is a line, and says a line.

use ci_device::{DISK_BYTES, Disk};

// What a call says.
#[derive(Clone, Copy)]
pub(crate) enum Said {
    Ok,
    Failed,
    Number(u64),
    Bytes([u8; 16], usize),
    Wrong,
}

fn two_numbers(text: &str) -> Option<(u64, usize)> {
    let (at, count) = text.split_once(' ')?;
    Some((at.parse::<u64>().ok()?, count.parse::<usize>().ok()?))
}

fn measured<D: Disk>(disk: &mut D) -> Said {
    match disk.length() {
        Ok(count) => Said::Number(count),
        Err(_) => Said::Failed,
    }
}

// A read of a range that isn't within the disk is no call.
fn taken<D: Disk>(disk: &mut D, at: u64, count: usize) -> Said {
    let mut bytes = [0u8; 16];
    let end = match disk.length() {
        Ok(end) => end,
        Err(_) => return Said::Failed,
    };
    if count > 16 || at > end || end - at < count as u64 {
        return Said::Wrong;
    }
    match disk.read_at(at, &mut bytes[..count]) {
        Ok(()) => Said::Bytes(bytes, count),
        Err(_) => Said::Failed,
    }
}

fn written<D: Disk>(disk: &mut D, at: u64, bytes: &[u8]) -> Said {
    let count = bytes.len() as u64;
    if count > DISK_BYTES || at > DISK_BYTES - count {
        return Said::Wrong;
    }
    match disk.write_at(at, bytes) {
        Ok(()) => Said::Ok,
        Err(_) => Said::Failed,
    }
}

fn synced<D: Disk>(disk: &mut D) -> Said {
    match disk.sync() {
        Ok(()) => Said::Ok,
        Err(_) => Said::Failed,
    }
}

fn written_line<D: Disk>(disk: &mut D, rest: &str) -> Said {
    match rest.split_once(' ') {
        Some((at, bytes)) => match at.parse::<u64>() {
            Ok(at) => written(disk, at, bytes.as_bytes()),
            Err(_) => Said::Wrong,
        },
        None => Said::Wrong,
    }
}

fn taken_line<D: Disk>(disk: &mut D, rest: &str) -> Said {
    match two_numbers(rest) {
        Some((at, count)) => taken(disk, at, count),
        None => Said::Wrong,
    }
}

// The calls are `length`, `sync`, `read AT COUNT` and `write AT BYTES`.
pub(crate) fn call<D: Disk>(disk: &mut D, line: &str) -> Said {
    match line.split_once(' ') {
        Some(("read", rest)) => taken_line(disk, rest),
        Some(("write", rest)) => written_line(disk, rest),
        Some(_) => Said::Wrong,
        None => match line {
            "length" => measured(disk),
            "sync" => synced(disk),
            _ => Said::Wrong,
        },
    }
}
