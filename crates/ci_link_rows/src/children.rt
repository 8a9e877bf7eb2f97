//! Daemons in processes of their own.

use crate::talks::{shown, talked};
use ci_link::{ChildSpawner, Link, Spawner};
use std::alloc::Global;
use std::test::Fail;

// The next bytes that a daemon gives, at most so many.
fn heard<L: Link>(alloc: Global, link: &mut L, most: usize) -> Result<Vec<u8>, Fail> {
    let mut bytes = Vec::new(alloc);
    for _ in 0..most {
        let mut out = [0u8; 1];
        match link.receive(&mut out) {
            Ok(count) => bytes.extend_from_slice(&out[..count])?,
            Err(_) => return Err("a link that gives".into()),
        }
    }
    Ok(bytes)
}

#[test]
fn a_child_that_says_what_it_hears_is_no_daemon(rt: HostRuntime) -> Result<(), Fail> {
    let alloc = rt.alloc();
    let mut spawner = ChildSpawner::new(rt.clone()?);
    let mut link = spawner.start(alloc, "/bin/cat").ok().ok_or("a child")?;
    assert!(rt; matches!(link.send(b"hello"), Ok(5)));
    assert_eq!(rt; heard(alloc, &mut link, 5)?.as_slice(), b"hello".as_slice());
    let (talk, link) = talked(alloc, link, "/d/a.txt")?;
    assert_eq!(rt; shown(alloc, &talk)?.as_str(), "died at 0");
    spawner.stop(link);
    Ok(())
}

#[test]
fn a_bare_name_is_not_looked_up(rt: HostRuntime) -> Result<(), Fail> {
    let alloc = rt.alloc();
    let mut spawner = ChildSpawner::new(rt.clone()?);
    for program in ["cat", "./cat", "/no/such/program", ""] {
        assert!(rt; spawner.start(alloc, program).is_err(), "{program}");
    }
    Ok(())
}
