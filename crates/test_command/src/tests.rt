mod arguments;
mod command;
