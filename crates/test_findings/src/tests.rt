mod advdb;
mod find;
mod findings;
mod rows;
