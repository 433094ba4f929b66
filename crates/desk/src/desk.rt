// The set that a script works on, held against the script's own list of its keys.
use super::batch::Ran;
use super::refusal::Refusal;
use super::script::{Batch, Command, Expected, Verb};
use super::show::Count;
use super::stop::Stop;
use super::{batch, grid, script, verdict, walk};
use inspect::well_formed;
use lens::read;
use std::alloc::Global;
use std::collections::BTreeSet;
use std::io;

// The words of the largest region that a script can make.
const WORDS: usize = 25280;

// The most keys that a script's own list has.
const MOST_KEYS: usize = 8192;

#[derive(Drop)]
pub struct Desk {
    alloc: Global,
    // the set, once a line has made it
    region: Option<Vec<u64>>,
    // the keys that the script's lines alone put and left there
    own: BTreeSet<u64>,
    // each answer was as by the script's own list
    agreed: bool,
}

impl Desk {
    pub fn new(alloc: Global) -> Self {
        Self {
            alloc,
            region: None,
            own: BTreeSet::new(alloc),
            agreed: true,
        }
    }

    fn region(&self) -> Result<&[u64], Expected> {
        match &self.region {
            Some(region) => Ok(region.as_slice()),
            None => Err(Expected::Region),
        }
    }

    fn make(&mut self, rt: &impl Print, cards: u64, nodes: u64) -> Result<(), Stop> {
        let mut region = vec![in self.alloc; 0u64; WORDS]?;
        make::make(&mut region, 12, 28, cards, nodes).map_err(Refusal::from)?;
        self.region = Some(region);
        println!(rt;
            "region with room for {} and {}",
            Count(cards as usize, "card"),
            Count(nodes as usize, "trie node")
        )?;
        Ok(())
    }

    // Whether a batch would take the script's own list past its end.
    fn has_room(&self, b: Batch, own_there: &[u64], keys: &[u64]) -> Result<(), Stop> {
        if b.verb != Verb::Cache {
            return Ok(());
        }
        let there = self.own.len();
        let new = keys
            .iter()
            .filter(|&key| own_there.binary_search(key).is_err())
            .count();
        if new > MOST_KEYS.saturating_sub(there) {
            return Err(Stop::TooMany { there, new });
        }
        Ok(())
    }

    // Says what came of a batch, and holds it against the script's own list.
    fn answered(&mut self, rt: &impl Print, b: Batch, ran: Ran) -> io::Result<()> {
        let yes = ran.yes;
        let no = ran.done.saturating_sub(yes);
        print!(rt; "{b}: ")?;
        match b.verb {
            Verb::Look => print!(rt; "{yes} there, {no} not there"),
            Verb::Cache => print!(rt; "{yes} new, {no} were there"),
            Verb::Delete => print!(rt; "{yes} removed, {no} were not there"),
        }?;
        if yes != ran.own {
            self.agreed = false;
            print!(rt; "; BUT BY THE SCRIPT'S OWN LIST {}", ran.own)?;
        }
        println!(rt)
    }

    fn frames(&mut self, rt: &impl Print, b: Batch) -> Result<(), Stop> {
        let keys = batch::keys_of(self.alloc, b)?;
        let there = batch::there_of(self.alloc, &self.own, &keys)?;
        self.has_room(b, &there, &keys)?;
        let Some(region) = &mut self.region else {
            return Err(Stop::Expected(Expected::Region));
        };
        let ran = batch::run(self.alloc, region, &mut self.own, &there, b, &keys)?;
        self.answered(rt, b, ran)?;
        Ok(())
    }

    fn open(&self, rt: &impl Print, card: u64) -> Result<(), Stop> {
        let mut keys = walk::keys_of(self.alloc, self.region()?)?;
        keys.retain(|key| *key >> 28 == card);
        keys.sort_unstable();
        grid::opens(rt, self.alloc, card, &keys)?;
        Ok(())
    }

    fn walk(&self, rt: &impl Print) -> Result<(), Stop> {
        let keys = walk::keys_of(self.alloc, self.region()?)?;
        walk::show(rt, &keys)?;
        Ok(())
    }

    fn count(&self, rt: &impl Print) -> Result<(), Stop> {
        let region = self.region()?;
        if !well_formed(region) {
            return Err(Stop::Refused(Refusal::Malformed));
        }
        println!(rt;
            "count: {} of {}, {}, {} of {}",
            Count(read::k(region), "card"),
            read::c(region),
            Count(read::count(region) as usize, "key"),
            Count(read::used(region), "trie node"),
            read::n(region)
        )?;
        Ok(())
    }

    // What the whole comes to: yes, where each answer and every key is as by the script's own list.
    pub fn verdict(&self, rt: &impl Print) -> io::Result<bool> {
        match &self.region {
            None => println!(rt; "There is no region.")?,
            Some(region) => match walk::keys_of(self.alloc, region) {
                Ok(keys) => {
                    if !verdict::held(rt, &keys, &self.own)? {
                        return Ok(false);
                    }
                }
                Err(refusal) => {
                    println!(rt; "{refusal}")?;
                    return Ok(false);
                }
            },
        }
        if !self.agreed {
            println!(rt; "An answer was not as by the script's own list.")?;
        }
        Ok(self.agreed)
    }

    // Carries a line out.
    pub fn step(&mut self, rt: &impl Print, number: u64, line: &str) -> Result<(), Stop> {
        let words = script::words(self.alloc, line)?;
        let read = script::read(&words, self.region.is_some());
        if let Ok(None) = read {
            return Ok(());
        }
        print!(rt; "line {number}: ")?;
        match read? {
            Some(Command::Region { cards, nodes }) => self.make(rt, cards, nodes),
            Some(Command::Frames(b)) => self.frames(rt, b),
            Some(Command::Open(card)) => self.open(rt, card),
            Some(Command::Walk) => self.walk(rt),
            Some(Command::Count) => self.count(rt),
            None => Ok(()),
        }
    }
}
