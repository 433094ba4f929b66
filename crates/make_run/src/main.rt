// Makes regions in a local array and writes what a person can hold against document 01: each refusal of make, and the worked region.
#![tactic(auto)]

use promises::MakeRefusal;
use std::io;

// The words of the local array: one more than the worked region has.
const WORDS: usize = 6321;

// What every word holds before make, so that a word it does not write shows.
const OLD: u64 = 99;

// How many words are not x.
fn others(region: &[u64], x: u64) -> usize {
    region.iter().filter(|word| **word != x).count()
}

// A line of words, each `step` after the one before.
fn say_words(rt: &impl Print, name: &str, words: &[u64], step: usize) -> io::Result<()> {
    print!(rt; "{name}:")?;
    for chunk in words.chunks(step.max(1)) {
        if let Some(word) = chunk.first() {
            print!(rt; " {word}")?;
        }
    }
    println!(rt)
}

// What make answers for P, S, C and N, and how many words of the slice it wrote.
fn attempt(rt: &impl Print, name: &str, region: &mut [u64], numbers: [u64; 4]) -> io::Result<()> {
    let [p, s, c, n] = numbers;
    let answer = match make::make(region, p, s, c, n) {
        Ok(()) => "made",
        Err(MakeRefusal::OutOfRange) => "2, a number outside its range",
        Err(MakeRefusal::TooShort) => "3, slice shorter than the total",
    };
    println!(rt; "{name}: {answer}; words written: {}", others(region, OLD))
}

fn out_of_range(rt: &impl Print, region: &mut [u64]) -> io::Result<()> {
    attempt(rt, "P=0", region, [0, 28, 4, 8])?;
    attempt(rt, "P=25", region, [25, 28, 4, 8])?;
    attempt(rt, "S=0", region, [12, 0, 4, 8])?;
    attempt(rt, "S=41", region, [12, 41, 4, 8])?;
    attempt(rt, "C=0", region, [12, 28, 0, 8])?;
    attempt(rt, "C=65,537", region, [12, 28, 65537, 8])?;
    attempt(rt, "N=1,048,577", region, [12, 28, 4, 1048577])?;
    attempt(rt, "N=2^64-1", region, [12, 28, 4, u64::MAX])
}

fn too_large(rt: &impl Print, region: &mut [u64]) -> io::Result<()> {
    attempt(rt, "P=24", region, [24, 28, 4, 8])?;
    attempt(rt, "C=65,536", region, [12, 28, 65536, 8])?;
    attempt(rt, "N=1,048,576", region, [12, 28, 4, 1048576])
}

fn too_short(rt: &impl Print, region: &mut [u64; WORDS]) -> io::Result<()> {
    attempt(rt, "6,319 words", &mut region[..6319], [12, 28, 4, 8])?;
    attempt(rt, "no words", &mut region[..0], [12, 28, 4, 8])?;
    attempt(rt, "P=0, no words", &mut region[..0], [0, 28, 4, 8])
}

fn long_enough(rt: &impl Print, region: &mut [u64; WORDS]) -> io::Result<()> {
    attempt(rt, "6,320 words", &mut region[..6320], [12, 28, 4, 8])?;
    attempt(rt, "6,321 words", region, [12, 28, 4, 8])?;
    say_words(rt, "word 6,320, the last", &region[6320..], 1)
}

fn worked(rt: &impl Print, region: &[u64; WORDS]) -> io::Result<()> {
    println!(rt; "\nP=12, S=28, C=4, N=8")?;
    say_words(rt, "header", &region[..16], 1)?;
    say_words(rt, "container stack", &region[84..88], 1)?;
    say_words(rt, "links of the records", &region[91..104], 4)?;
    say_words(rt, "node stack", &region[4200..4208], 1)?;
    say_words(rt, "words 5 of the nodes", &region[4213..6320], 264)?;
    println!(rt; "words that are not 0: {}", others(&region[..6320], 0))
}

fn main(rt: HostRuntime) -> io::Result<()> {
    let mut region = [OLD; WORDS];
    println!(rt; "P=12, S=28, C=4, N=8 and 6,321 words, but for what is named")?;
    out_of_range(&rt, &mut region)?;
    too_large(&rt, &mut region)?;
    too_short(&rt, &mut region)?;
    long_enough(&rt, &mut region)?;
    worked(&rt, &region)
}
