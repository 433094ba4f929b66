// The set held against the script's own list, at a script's end.
use super::show::{Count, Key};
use std::collections::BTreeSet;
use std::io;

// A line for each card, and how many cards there are.
fn cards(rt: &impl Print, keys: &[u64]) -> io::Result<usize> {
    let mut cards = 0usize;
    for on_card in keys.chunk_by(|a, b| a >> 28 == b >> 28) {
        if let Some(key) = on_card.first() {
            println!(rt; "card {}: {}", key >> 28, Count(on_card.len(), "key"))?;
            cards = cards.saturating_add(1);
        }
    }
    Ok(cards)
}

// Says of the keys that nobody put there.
fn strangers(rt: &impl Print, first: u64, many: usize) -> io::Result<()> {
    let card = first >> 28;
    let key = Key(first);
    match many {
        1 => println!(rt; "1 key stands where nobody put it, on card {card}: {key}"),
        _ => println!(rt;
            "{many} keys stand where nobody put them, the first on card {card}: {key}"
        ),
    }
}

// Says of the keys that the script put there and that are not there.
fn missing(rt: &impl Print, many: usize) -> io::Result<()> {
    match many {
        1 => println!(rt; "1 key that the script put is not there"),
        _ => println!(rt; "{many} keys that the script put are not there"),
    }
}

// Says how the keys of the set are not the script's own. Yes, where every key stands where the script put it.
pub fn held(rt: &impl Print, keys: &[u64], own: &BTreeSet<u64>) -> io::Result<bool> {
    let cards = cards(rt, keys)?;
    let there = keys.iter().filter(|&key| own.contains(key)).count();
    if let Some(first) = keys.iter().find(|&key| !own.contains(key)) {
        strangers(rt, *first, keys.len().saturating_sub(there))?;
    }
    if there < own.len() {
        missing(rt, own.len() - there)?;
    }
    if there != keys.len() || there != own.len() {
        return Ok(false);
    }
    println!(rt;
        "Every key stands where the script put it: {} on {}.",
        Count(there, "key"),
        Count(cards, "card")
    )?;
    Ok(true)
}
