mod drills;
mod hostile;
mod keep;
mod push;
mod run;
mod workers;
