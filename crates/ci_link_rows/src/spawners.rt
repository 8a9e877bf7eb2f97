//! Spawners in memory, and what is done with them: a word for each call.

ghost use Rattle.std.specs.Prelude.{IfOk};
ghost use Rattle.ci_link.specs.Memory.{IsSureUnused, IsUnused};

use ci_base::Text8;
use ci_link::{
    Link, LinkRecord, MemoryLink, MemorySpawner, Records, Spawner, SureMemoryLink,
    SureMemorySpawner,
};
use std::alloc::Global;
use std::collections::VecDeque;
use std::test::Fail;

fn link(alloc: Global, answers: &[u8]) -> Result<MemoryLink, Fail>
    ensures { IfOk result IsUnused }
{
    let answers = Text8::of(alloc, answers)?;
    Ok(MemoryLink::new(alloc, answers, Vec::new(alloc), 16)?)
}

fn sure_link(alloc: Global, answers: &[u8]) -> Result<SureMemoryLink, Fail>
    ensures { IfOk result IsSureUnused }
{
    Ok(SureMemoryLink::new(alloc, Text8::of(alloc, answers)?, 16)?)
}

// Starts fail at the second call.
fn spawner(alloc: Global) -> Result<MemorySpawner, Fail> {
    let links = vec![in alloc; link(alloc, b"one")?, link(alloc, b"two")?]?;
    let fails = Vec::from_slice(alloc, &[1u64])?;
    Ok(MemorySpawner::new(alloc, links, fails))
}

fn sure_spawner(alloc: Global) -> Result<SureMemorySpawner, Fail> {
    let links = vec![in alloc; sure_link(alloc, b"one")?]?;
    Ok(SureMemorySpawner::new(alloc, links))
}

// The next link is started, and stands behind the others.
fn start<S: Spawner>(
    alloc: Global,
    spawner: &mut S,
    links: &mut VecDeque<S::Link>,
) -> Result<bool, Fail> {
    match spawner.start(alloc, "daemon") {
        Ok(link) => {
            links.push_back(link)?;
            Ok(true)
        }
        Err(_) => Ok(false),
    }
}

// A link is given back.
fn stop<S: Spawner>(spawner: &mut S, link: Option<S::Link>) -> bool {
    match link {
        Some(link) => {
            spawner.stop(link);
            true
        }
        None => false,
    }
}

// At most two bytes are received.
fn hear<L: Link>(link: Option<&mut L>) -> bool {
    match link {
        Some(link) => link.receive(&mut [0u8; 2]).is_ok(),
        None => false,
    }
}

fn say<L: Link>(link: Option<&mut L>, bytes: &[u8]) -> bool {
    match link {
        Some(link) => link.send(bytes).is_ok(),
        None => false,
    }
}

// What a word does, and whether it is done: calls of the first link, or of the last, and the end of
// one of them.
fn act<S: Spawner>(
    alloc: Global,
    spawner: &mut S,
    links: &mut VecDeque<S::Link>,
    word: &str,
) -> Result<bool, Fail> {
    match word {
        "start" => start(alloc, spawner, links),
        "hear" => Ok(hear(links.front_mut())),
        "say" => Ok(say(links.front_mut(), b"hello")),
        "shout" => Ok(say(links.front_mut(), b"more than sixteen bytes")),
        "fill" => Ok(say(links.back_mut(), &[0u8; 2048])),
        "more" => Ok(say(links.back_mut(), b"x")),
        "stop" => Ok(stop(spawner, links.pop_front())),
        _ => Ok(stop(spawner, links.pop_back())),
    }
}

// A sign for each word that is done or refused.
fn acted<S: Spawner>(alloc: Global, spawner: &mut S, words: &str) -> Result<String, Fail> {
    let mut links = VecDeque::new(alloc);
    let mut signs = String::new(alloc);
    act_all(alloc, spawner, &mut links, &mut signs, words)?;
    Ok(signs)
}

fn act_all<S: Spawner>(
    alloc: Global,
    spawner: &mut S,
    links: &mut VecDeque<S::Link>,
    signs: &mut String,
    words: &str,
) -> Result<(), Fail> {
    for word in words.split(' ') {
        let done = act(alloc, spawner, links, word)?;
        signs.push(if done { '+' } else { '-' })?;
    }
    Ok(())
}

// What is told of each link: the bytes sent, those given, and how it ended.
fn told(alloc: Global, records: &Records) -> Result<String, Fail> {
    let mut told = String::new(alloc);
    for record in &records.to_vec(alloc)? {
        tell(&mut told, record)?;
    }
    Ok(told)
}

fn tell(told: &mut String, record: &LinkRecord) -> Result<(), Fail> {
    let sent = str::from_utf8(record.sent.items()).ok().ok_or("a text")?;
    let given = str::from_utf8(record.given.items()).ok().ok_or("a text")?;
    let (rose, more) = (record.rose, record.more);
    Ok(write!(told, " [{sent}] [{given}] rose {rose} more {more}")?)
}

fn spawned(alloc: Global, words: &str) -> Result<String, Fail> {
    let mut spawner = spawner(alloc)?;
    acted_and_told(alloc, &mut spawner, words)
}

// The signs of some words, and what is told of the links that were given back.
fn acted_and_told(alloc: Global, spawner: &mut MemorySpawner, words: &str) -> Result<String, Fail> {
    let signs = acted(alloc, spawner, words)?;
    let told = told(alloc, spawner.records())?;
    Ok(format!(in alloc; "{}{}", signs.as_str(), told.as_str())?)
}

#[test]
fn links_come_in_order_and_are_recorded(rt: HostRuntime) -> Result<(), Fail> {
    let words = "start start start start hear say shout end stop";
    assert_eq!(rt;
        spawned(rt.alloc(), words)?.as_str(),
        "+-+-++-++ [] [] rose false more true [hello] [on] rose true more true"
    );
    Ok(())
}

fn surely_spawned(alloc: Global, words: &str) -> Result<String, Fail> {
    let mut spawner = sure_spawner(alloc)?;
    surely_acted(alloc, &mut spawner, words)
}

fn surely_acted(
    alloc: Global,
    spawner: &mut SureMemorySpawner,
    words: &str,
) -> Result<String, Fail> {
    let signs = acted(alloc, spawner, words)?;
    let told = told(alloc, spawner.records())?;
    Ok(format!(in alloc; "{}{}", signs.as_str(), told.as_str())?)
}

#[test]
fn a_sure_spawner_gives_links_that_have_ended(rt: HostRuntime) -> Result<(), Fail> {
    // behind the links that it was given as many as are asked for, with room for 2,048 bytes each
    assert_eq!(rt;
        surely_spawned(rt.alloc(), "start start fill more start end stop")?.as_str(),
        "+++-+++ [] [] rose false more false [] [] rose false more true"
    );
    Ok(())
}

// What is told of a link and its copy, which the spawner didn't start.
fn told_of_both(alloc: Global) -> Result<String, Fail> {
    let mut spawner = sure_spawner(alloc)?;
    let link = sure_link(alloc, b"one")?;
    let copy = link.copy(alloc)?;
    spawner.stop(link);
    spawner.stop(copy);
    told(alloc, spawner.records())
}

#[test]
fn a_link_that_it_did_not_start_is_told_as_well(rt: HostRuntime) -> Result<(), Fail> {
    assert_eq!(rt;
        told_of_both(rt.alloc())?.as_str(),
        " [] [] rose false more true [] [] rose false more true"
    );
    Ok(())
}

// What is told of a spawner with a link that was given back, and of its copy, which goes on.
fn copied(alloc: Global) -> Result<String, Fail> {
    let mut spawner = spawner(alloc)?;
    let one = acted_and_told(alloc, &mut spawner, "start stop")?;
    let other = copy_told(alloc, &spawner)?;
    Ok(format!(in alloc; "{}; {}", one.as_str(), other.as_str())?)
}

fn copy_told(alloc: Global, spawner: &MemorySpawner) -> Result<String, Fail> {
    let mut copy = spawner.copy(alloc)?;
    acted_and_told(alloc, &mut copy, "start start hear hear stop")
}

#[test]
fn a_copied_spawner_goes_on_by_itself(rt: HostRuntime) -> Result<(), Fail> {
    let one = "[] [] rose false more true";
    let told = copied(rt.alloc())?;
    let wanted = format!(in rt.alloc(); "++ {one}; -++++ {one} [] [two] rose false more false")?;
    assert_eq!(rt; told.as_str(), wanted.as_str());
    Ok(())
}
