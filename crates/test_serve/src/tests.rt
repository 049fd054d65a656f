mod endings;
mod input;
mod memory;
mod output;
mod serve;
mod team;
