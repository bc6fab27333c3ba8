//! Longer texts, with each kind of event, and what is right for them while memory is refused.
use std::alloc::{AllocError, Global};
use std::fmt::Write;
use test_support::graph::repeated;

pub const STEPS: &[&[u8]] = &[b"metroheap", b"steps", b"--from=11", b"--to=11"];

pub const RUN_BY_TWO: &[&[u8]] = &[b"metroheap", b"run", b"--workers=2"];

pub const RACE_BY_TWO: &[&[u8]] = &[b"metroheap", b"race", b"--workers=2"];

/// Under this configuration each command is followed by a whole cycle.
pub const MIGRATE_CYCLES: &[&[u8]] = &[
    b"metroheap",
    b"migrate",
    b"--pages=4",
    b"--quantum=1000",
    b"--trigger=4",
    b"--every=1",
];

/// Five objects of 64 words of which one is dropped, so that a collection moves another; two names, a dump and a report.
pub const COLLECTED: &[u8] = b"# Five objects, of which one moves.
config 4 209 0 0

a new 0 1 59
a new 1 1 59
a new 2 1 59
a new 3 1 59
a new 4 1 59
a put 0 0 4
a clear 1
* start
* quantum
* quantum
* quantum
a write 4 0 7
* quantum
* dump
a get 5 0 0
a same 4 5
a read 5 0
* start
* quantum
* quantum
* stat
b take 0 3
b shape 0
* left
* report 1
";

pub const COLLECTED_OUTPUT: &[u8] = b"ok
ok
ok
ok
ok
ok
ok
ok
spent 208 phase roots
spent 99 phase defrag
spent 209 phase defrag
ok
spent 5 phase idle
dump P0 C64 - 0=0.0 1=4.0 2=2.0 3=3.0 P1 C64 + 0>0.1
ok
yes
number 7
ok
spent 208 phase roots
spent 102 phase idle
free 3 live 4 old 0 phase idle cycle 2
ok
refused 2 null
left 0
mutator 13 collector 831 quanta 6 greatest 209 window 1 least 0 floor none
";

/// Its steps, with what the quantum did that moves the object.
pub const COLLECTED_STEPS: &[u8] = b"session s0 is a
session s1 is b
1 s0 new 0 1 59 = ok
2 s0 new 1 1 59 = ok
3 s0 new 2 1 59 = ok
4 s0 new 3 1 59 = ok
5 s0 new 4 1 59 = ok
6 s0 put 0 0 4 = ok
7 s0 clear 1 = ok
8 * start = ok
9 * quantum = spent 208 phase roots
10 * quantum = spent 99 phase defrag
11 * quantum = spent 209 phase defrag
  quantum spent 209 phase defrag
    move place 1.0 to 0.1 birth 4 part 0 class 64 units 65 left 144
    forward units 144 left 0
12 s0 write 4 0 7 = ok
13 * quantum = spent 5 phase idle
14 * dump = dump P0 C64 - 0=0.0 1=4.0 2=2.0 3=3.0 P1 C64 + 0>0.1
15 s0 get 5 0 0 = ok
16 s0 same 4 5 = yes
17 s0 read 5 0 = number 7
18 * start = ok
19 * quantum = spent 208 phase roots
20 * quantum = spent 102 phase idle
21 * stat = free 3 live 4 old 0 phase idle cycle 2
22 s1 take 0 3 = ok
23 s1 shape 0 = refused 2 null
24 * left = left 0
25 * report 1 = mutator 13 collector 831 quanta 6 greatest 209 window 1 least 0 floor none
";

/// Lines of which each but the first has an answer.
pub const LINES_ANSWERED: &[u8] =
    b"config 4 353 0 0\na new 0 0 61\na write 0 60 7\n* dump\n* start\n* quantum\na walk\n* stat\na read 0 60\n* report 1\nb new 1 1 1\nb shape 1\na read 0 60\n";

/// Lines of which each has an answer in a world.
pub const LINES_IN_A_WORLD: &[u8] =
    b"a new 0 1 1\na write 0 0 7\n* stat\na new 1 0 60\na walk\nb new 0 60 60\nb shape 0\na put 0 0 1\na read 0 0\n";

/// A line that is outside the grammar after some that are not.
pub const REFUSED: &[u8] = b"config 4 209 0 0\na new 0 1 1\n* dump\nb walk\n";

pub const REFUSED_REASON: &[u8] = b"metroheap: line 4: \"walk\" is no command\n";

pub const REFUSED_OUTPUT: &[u8] = b"refused 10 line 4\n";

/// One session whose every command is followed by a whole cycle.
pub const ALONE: &[u8] = b"config 4 1000 4 1
a clear 0
a new 0 0 0
a shape 0
a read 0 0
a end
a clear 0
";

pub const ALONE_HISTORY: &[u8] = b"history 2 rules 2 4 1000 4 1
s0 clear 0 = ok units 1 296
s0 new 0 0 0 = ok units 1 360
s0 shape 0 = shape 0 0 units 1 360
s0 read 0 0 = refused 3 no field units 1 360
s0 end = ok units 1 359
s0 clear 0 = refused 6 ended units 1 296
";

/// Three sessions and the desk.
pub const SHARED: &[u8] = b"config 4 209 0 0
a new 0 0 1
a write 0 0 5
a post 0 0
b take 0 0
b shape 0
b new 1 2 0
c new 0 1 1
c put 0 0 0
c end
* start
* quantum
* dump
* stat
* report 7
* left
";

/// How many entries a history of three sessions and the desk has.
pub const SHARED_ENTRIES: u64 = 15;

/// A collection, as a history of version 1.
pub const HISTORY: &[u8] = b"history 1
s0 new 0 0 0 = ok
* start = ok
* quantum = spent 353 phase sweep
* quantum = spent 7 phase idle
* dump = dump P0 C4 - 0=0.0
s1 clear 16 = refused 1 bad slot
* report 361 = mutator 2 collector 360 quanta 2 greatest 353 window 361 least 1 floor none
";

/// The script of the record.
pub const CYCLE: &[u8] =
    b"config 4 353 0 0\na new 0 0 0\n* start\n* quantum\n* quantum\n* dump\nb clear 16\n* report 361\n";

/// The same history as version 2.
pub const RECORD: &[u8] = b"history 2 rules 1 4 353 0 0
s0 new 0 0 0 = ok units 1 0
* start = ok units 0 0
* quantum = spent 353 phase sweep units 0 353
* quantum = spent 7 phase idle units 0 7
* dump = dump P0 C4 - 0=0.0 units 0 0
s1 clear 16 = refused 1 bad slot units 1 0
* report 361 = mutator 2 collector 360 quanta 2 greatest 353 window 361 least 1 floor none units 0 0
";

pub const LEGAL: &[u8] = b"legal 7\n";

/// A history of which the third entry has a wrong reply.
pub const BAD_HISTORY: &[u8] =
    b"history 1\ns0 new 0 0 1 = ok\ns0 write 0 0 5 = ok\ns0 read 0 0 = number 6\ns0 end = ok\n";

/// The same as version 2.
pub const BAD_RECORD: &[u8] =
    b"history 2 rules 2 4 353 0 0\ns0 new 0 0 1 = ok units 1 0\ns0 write 0 0 5 = ok units 1 0\ns0 read 0 0 = number 6 units 1 0\n";

pub const FIRST_BAD: &[u8] = b"first bad 3\n";

/// What is reported of both.
pub const BAD_NUMBER: &[u8] = b"metroheap: line 4, entry 3: number 6, and right is number 5\n";

/// What is reported of the legal one by what its sessions see.
pub const LOOKED_THROUGH: &[u8] = b"metroheap: entries 7 full 0 quanta 2 starts 1\n";

/// And of the others, with the reason or without memory for it.
pub const BAD_SEEN: &[u8] =
    b"metroheap: line 4, entry 3: number 6, and right is number 5\nmetroheap: entries 3 full 0 quanta 0 starts 0\n";

pub const BAD_UNSAID: &[u8] =
    b"metroheap: an entry is bad\nmetroheap: entries 3 full 0 quanta 0 starts 0\n";

/// Replies for several buffers, and then a dump of 64 full pages.
pub fn crowded(alloc: Global) -> Result<Vec<u8>, AllocError> {
    let first = repeated(alloc, b"config 64 209 0 0\n", b"* stat\n", 1_800)?;
    let mut script = repeated(alloc, first.as_slice(), b"a new 0 0 0\n", 4_096)?;
    script.extend_from_slice(b"* dump\n")?;
    Ok(script)
}

pub fn crowded_output(alloc: Global) -> Result<String, AllocError> {
    let mut output = String::new(alloc);
    add_lines(
        &mut output,
        "free 64 live 0 old 0 phase idle cycle 0\n",
        1_800,
    )?;
    add_lines(&mut output, "ok\n", 4_096)?;
    add_dump(&mut output)?;
    Ok(output)
}

fn add_lines(output: &mut String, line: &str, count: usize) -> Result<(), AllocError> {
    for _ in 0..count {
        output.push_str(line)?;
    }
    Ok(())
}

fn add_dump(output: &mut String) -> Result<(), AllocError> {
    write!(output, "dump")?;
    for place in 0..4_096u32 {
        let slot = place % 64;
        if slot == 0 {
            write!(output, " P{} C4 -", place / 64)?;
        }
        write!(output, " {slot}={place}.0")?;
    }
    writeln!(output, "")?;
    Ok(())
}
