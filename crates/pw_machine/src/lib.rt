//! The machine that runs compiled code.
//! docs/design/MACHINE.md has the rules.
#![tactic(auto)]

mod act;
mod answers;
mod arithmetic;
mod arms;
mod asked;
mod asks;
mod calls;
mod chars;
mod compare;
mod conditions;
mod counting;
mod digits;
mod entries;
mod keyed;
pub mod laws;
mod linkage;
mod moves;
mod numbers;
mod places;
mod reading;
mod registers;
mod replies;
pub mod run;
mod spot;
mod stack;
mod statements;
mod texts;
mod top;
mod turns;
mod units;
mod value;
mod verbs;
