//! What small programs ask and show, worked out by hand from the rules.

pub mod arithmetic;
pub mod calls;
pub mod conditions;
pub mod counts;
pub mod decks;
pub mod entries;
pub mod files;
pub mod files_of_a_deck;
pub mod moves;
pub mod performs;
pub mod screens;
pub mod sends;
pub mod stories;
