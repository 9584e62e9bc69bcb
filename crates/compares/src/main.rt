// Compares the pairs of captures of data/: of each that an argument names, one line with the list or
// the refusal, the place where the rest begins and how many octets it has, and what a lent list is
// answered that is just long enough, and one that is shorter by one entry.
//
// The pairs and what is said of them were worked out by hand (the .txt beside them).
#![tactic(auto)]

use stored::{named, say, say_number};

fn say_spaced(rt: HostRuntime, n: u64) {
    say(rt, b" ");
    say_number(rt, n);
}

// That the entries from a place on are not as they were lent.
fn say_written(rt: HostRuntime, list: &[u64], from: usize) {
    if list.iter().skip(from).any(|&entry| entry != 7) {
        say(rt, b", written behind the entries");
    }
}

// What a list of so many entries is answered, the first of a longer one.
fn say_room(rt: HostRuntime, first: &[u8], second: &[u8], room: usize) {
    let mut list = [7u64; 64];
    let n = room.min(list.len());
    let c = comparison::compare(first, second, &mut list[..n]);
    say(rt, b", room ");
    say_number(rt, room as u64);
    say(rt, b": ");
    say_number(rt, octets::answer_number(c.map(|_| ())) as u64);
    say_written(rt, &list, c.unwrap_or(0));
}

fn say_rest(rt: HostRuntime, first: &[u8], second: &[u8]) {
    say(rt, b", rest ");
    say_number(rt, comparison::rest_place(first, second) as u64);
    say(rt, b" with ");
    say_number(rt, comparison::rest(first, second).len() as u64);
}

fn run(rt: HostRuntime, first: &[u8], second: &[u8]) {
    let mut list = [7u64; 64];
    let c = comparison::compare(first, second, &mut list);
    let count = c.unwrap_or(0);
    say(rt, b": ");
    say_number(rt, octets::answer_number(c.map(|_| ())) as u64);
    for &entry in list.iter().take(count) {
        say_spaced(rt, entry);
    }
    say_written(rt, &list, count);
    say_rest(rt, first, second);
    say_room(rt, first, second, count);
    say_room(rt, first, second, count.saturating_sub(1));
    say(rt, b"\n");
}

// The pair that argument i names. None: it cannot be read.
fn run_named(rt: HostRuntime, i: usize) -> Option<()> {
    let mut name = [0u8; 4_096];
    let name = arguments::word(rt, i, &mut name);
    say(rt, name);
    let mut first = [0u8; 65_536];
    let first = named(rt, name, b".first", &mut first)?;
    let mut second = [0u8; 65_536];
    let second = named(rt, name, b".second", &mut second)?;
    run(rt, first, second);
    Some(())
}

fn main(rt: HostRuntime) {
    for i in 1..arguments::count(rt) {
        run_named(rt, i);
    }
}
