//! Scripts that build graphs and collect them, and what is answered to one of them.

use crate::gates::Seen;
use std::alloc::{AllocError, Global};

/// A text, and after it another, so many times.
pub fn repeated(
    alloc: Global,
    first: &[u8],
    more: &[u8],
    count: usize,
) -> Result<Vec<u8>, AllocError> {
    let mut text = Vec::from_slice(alloc, first)?;
    for _ in 0..count {
        text.extend_from_slice(more)?;
    }
    Ok(text)
}

/// An object with 60 others in its fields, and a cycle of two quanta, whose batches have 1, 25 and 35 places.
pub fn wide_script(alloc: Global) -> Result<Vec<u8>, AllocError> {
    let mut script = Vec::from_slice(alloc, b"config 8 400 0 0\na new 0 60 0\n")?;
    for field in 0..60_u32 {
        let lines = format!(in alloc; "a new 1 1 0\na put 0 {field} 1\n")?;
        script.extend_from_slice(lines.as_bytes())?;
    }
    script.extend_from_slice(b"a clear 1\n* start\n* quantum\n* quantum\n* stat\n")?;
    Ok(script)
}

/// A chain of 300 objects, and a cycle of six quanta, each batch of which has one place.
pub fn chain_script(alloc: Global) -> Result<Vec<u8>, AllocError> {
    let first = b"config 8 209 0 0\na new 0 1 0\n";
    let mut script = repeated(alloc, first, b"a new 1 1 0\na put 1 0 0\na copy 0 1\n", 299)?;
    let cycle = repeated(alloc, b"a clear 1\n* start\n", b"* quantum\n", 6)?;
    script.extend_from_slice(&cycle)?;
    script.extend_from_slice(b"* stat\n")?;
    Ok(script)
}

fn add_leaves(alloc: Global, script: &mut Vec<u8>, leaves: u32) -> Result<(), AllocError> {
    for leaf in 0..leaves {
        let lines = format!(in alloc; "a new 2 1 0\na put 1 {leaf} 2\na put 2 0 1\n")?;
        script.extend_from_slice(lines.as_bytes())?;
    }
    Ok(())
}

fn add_row(alloc: Global, script: &mut Vec<u8>, row: u32, leaves: u32) -> Result<(), AllocError> {
    let lines = format!(in alloc; "a new 1 {leaves} 0\na put 0 {row} 1\n")?;
    script.extend_from_slice(lines.as_bytes())?;
    add_leaves(alloc, script, leaves)
}

/// A script that builds a graph after its first lines. Slot 0 names an object that leads to so many rows, each row has so many
/// leaves, and each leaf leads back to its row.
pub fn graph_script(
    alloc: Global,
    first: &[u8],
    rows: u32,
    leaves: u32,
) -> Result<Vec<u8>, AllocError> {
    let mut script = Vec::from_slice(alloc, first)?;
    for row in 0..rows {
        add_row(alloc, &mut script, row, leaves)?;
    }
    script.extend_from_slice(b"a clear 1\na clear 2\n")?;
    Ok(script)
}

/// Three cycles over the graph, five of whose rows are dropped before the second. They mark batches of 1, 8, 107 and 373
/// places, and then twice of 1, 3 and 180.
const CYCLES: &[u8] =
    b"* start\n* quantum\n* quantum\n* quantum\n* stat\na put 0 1 15\na put 0 2 15\na put 0 4 15\na put 0 5 15\na put 0 7 15\n* start\n* quantum\n* quantum\n* quantum\n* dump\n* stat\n* start\n* quantum\n* quantum\n* dump\n* stat\n* report 1000\n";

/// What a hook sees of the cycles if more than one worker marks them: their batches have 61 pieces, and four of them more
/// than one.
pub const CYCLES_SEEN: Seen = Seen {
    passed: 61,
    cut: 4,
    faults: 0,
};

/// How often `ok` is answered first.
const ACCEPTED: usize = 1_460;

/// What is answered then.
const ANSWERS: &[u8] =
    b"spent 999 phase mark\nspent 1000 phase sweep\nspent 334 phase idle\nfree 19 live 489 old 0 phase idle cycle 1\nok\nok\nok\nok\nok\nok\nspent 1000 phase sweep\nspent 844 phase idle\nspent 0 phase idle\ndump P0 C13 - 0=0.0 P1 C64 - 0=1.0 1=367.0 3=184.0 P2 C5 - 0=2.0 1=3.0 2=4.0 3=5.0 4=6.0 5=7.0 6=8.0 7=9.0 8=10.0 9=11.0 10=12.0 11=13.0 12=14.0 13=15.0 14=16.0 15=17.0 16=18.0 17=19.0 18=20.0 19=21.0 20=22.0 21=23.0 22=24.0 23=25.0 24=26.0 25=27.0 26=28.0 27=29.0 28=30.0 29=31.0 30=32.0 31=33.0 32=34.0 33=35.0 34=36.0 35=37.0 36=38.0 37=39.0 38=40.0 39=41.0 40=42.0 41=43.0 42=44.0 43=45.0 44=46.0 45=47.0 46=48.0 47=49.0 48=50.0 49=51.0 50=52.0 P3 C5 + 0>5.0 1>5.1 2>5.2 3>5.3 4>5.4 5>5.5 6>5.6 7>5.7 8>5.8 P5 C5 - 0=53.0 1=54.0 2=55.0 3=56.0 4=57.0 5=58.0 6=59.0 7=60.0 8=61.0 9=416.0 10=417.0 11=418.0 12=419.0 13=420.0 14=421.0 15=422.0 16=423.0 17=424.0 18=425.0 19=426.0 20=427.0 27=185.0 28=186.0 29=187.0 30=188.0 31=189.0 32=190.0 33=191.0 34=192.0 35=193.0 36=194.0 37=195.0 38=196.0 39=197.0 40=198.0 41=199.0 42=200.0 43=201.0 44=202.0 45=203.0 46=204.0 47=205.0 48=206.0 49=207.0 50=208.0 P6 C5 - 0=209.0 1=210.0 2=211.0 3=212.0 4=213.0 5=214.0 6=215.0 7=216.0 8=217.0 9=218.0 10=219.0 11=220.0 12=221.0 13=222.0 14=223.0 15=224.0 16=225.0 17=226.0 18=227.0 19=228.0 20=229.0 21=230.0 22=231.0 23=232.0 24=233.0 25=234.0 26=235.0 27=236.0 28=237.0 29=238.0 30=239.0 31=240.0 32=241.0 33=242.0 34=243.0 35=244.0 P7 C64 + 2>1.1 P10 C5 - 3=368.0 4=369.0 5=370.0 6=371.0 7=372.0 8=373.0 9=374.0 10=375.0 11=376.0 12=377.0 13=378.0 14=379.0 15=380.0 16=381.0 17=382.0 18=383.0 19=384.0 20=385.0 21=386.0 22=387.0 23=388.0 24=389.0 25=390.0 26=391.0 27=392.0 28=393.0 29=394.0 30=395.0 31=396.0 32=397.0 33=398.0 34=399.0 35=400.0 36=401.0 37=402.0 38=403.0 39=404.0 40=405.0 41=406.0 42=407.0 43=408.0 44=409.0 45=410.0 46=411.0 47=412.0 48=413.0 49=414.0 50=415.0 P11 C5 + 0>5.9 1>5.10 2>5.11 3>5.12 4>5.13 5>5.14 6>5.15 7>5.16 8>5.17 9>5.18 10>5.19 11>5.20\nfree 23 live 184 old 22 phase idle cycle 2\nok\nspent 1000 phase sweep\nspent 228 phase idle\ndump P0 C13 - 0=0.0 P1 C64 - 0=1.0 1=367.0 3=184.0 P2 C5 - 0=2.0 1=3.0 2=4.0 3=5.0 4=6.0 5=7.0 6=8.0 7=9.0 8=10.0 9=11.0 10=12.0 11=13.0 12=14.0 13=15.0 14=16.0 15=17.0 16=18.0 17=19.0 18=20.0 19=21.0 20=22.0 21=23.0 22=24.0 23=25.0 24=26.0 25=27.0 26=28.0 27=29.0 28=30.0 29=31.0 30=32.0 31=33.0 32=34.0 33=35.0 34=36.0 35=37.0 36=38.0 37=39.0 38=40.0 39=41.0 40=42.0 41=43.0 42=44.0 43=45.0 44=46.0 45=47.0 46=48.0 47=49.0 48=50.0 49=51.0 50=52.0 P5 C5 - 0=53.0 1=54.0 2=55.0 3=56.0 4=57.0 5=58.0 6=59.0 7=60.0 8=61.0 9=416.0 10=417.0 11=418.0 12=419.0 13=420.0 14=421.0 15=422.0 16=423.0 17=424.0 18=425.0 19=426.0 20=427.0 27=185.0 28=186.0 29=187.0 30=188.0 31=189.0 32=190.0 33=191.0 34=192.0 35=193.0 36=194.0 37=195.0 38=196.0 39=197.0 40=198.0 41=199.0 42=200.0 43=201.0 44=202.0 45=203.0 46=204.0 47=205.0 48=206.0 49=207.0 50=208.0 P6 C5 - 0=209.0 1=210.0 2=211.0 3=212.0 4=213.0 5=214.0 6=215.0 7=216.0 8=217.0 9=218.0 10=219.0 11=220.0 12=221.0 13=222.0 14=223.0 15=224.0 16=225.0 17=226.0 18=227.0 19=228.0 20=229.0 21=230.0 22=231.0 23=232.0 24=233.0 25=234.0 26=235.0 27=236.0 28=237.0 29=238.0 30=239.0 31=240.0 32=241.0 33=242.0 34=243.0 35=244.0 P10 C5 - 3=368.0 4=369.0 5=370.0 6=371.0 7=372.0 8=373.0 9=374.0 10=375.0 11=376.0 12=377.0 13=378.0 14=379.0 15=380.0 16=381.0 17=382.0 18=383.0 19=384.0 20=385.0 21=386.0 22=387.0 23=388.0 24=389.0 25=390.0 26=391.0 27=392.0 28=393.0 29=394.0 30=395.0 31=396.0 32=397.0 33=398.0 34=399.0 35=400.0 36=401.0 37=402.0 38=403.0 39=404.0 40=405.0 41=406.0 42=407.0 43=408.0 44=409.0 45=410.0 46=411.0 47=412.0 48=413.0 49=414.0 50=415.0\nfree 26 live 184 old 0 phase idle cycle 3\nmutator 1464 collector 5405 quanta 8 greatest 1000 window 1000 least 0 floor none\n";

/// A script of three cycles over a graph of eight rows of sixty leaves.
pub fn cycles_script(alloc: Global) -> Result<Vec<u8>, AllocError> {
    let mut script = graph_script(alloc, b"config 32 1000 0 0\na new 0 8 0\n", 8, 60)?;
    script.extend_from_slice(CYCLES)?;
    Ok(script)
}

/// What is answered to the script of three cycles.
pub fn cycles_output(alloc: Global) -> Result<Vec<u8>, AllocError> {
    let mut output = repeated(alloc, b"", b"ok\n", ACCEPTED)?;
    output.extend_from_slice(ANSWERS)?;
    Ok(output)
}
