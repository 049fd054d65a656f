mod matching;
mod order;
mod range;
