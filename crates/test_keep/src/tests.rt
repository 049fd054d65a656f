mod journal;
mod record;
