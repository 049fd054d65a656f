mod hub;
mod pool;
mod records;
mod replay;
mod seats;
mod starts;
