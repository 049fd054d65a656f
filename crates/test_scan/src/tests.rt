mod bad;
mod coalesce;
mod image;
mod input;
mod list;
mod python;
mod refusal;
