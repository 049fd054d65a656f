mod manifest;
mod osv_text;
mod read;
mod record;
mod records;
mod seals;
