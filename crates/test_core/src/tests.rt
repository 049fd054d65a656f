mod acts;
mod core_events;
mod hook;
mod notice;
mod outcome;
mod samples;
