// Bits by shift and mask: one word, the prefix bitmap over words of the region, the 256-bit map of a node by value, and its two changes by `&mut`.
#![tactic(auto)]

pub mod bitmap;
pub mod thin;
pub mod tiny;
pub mod word;
