// Checks of one request after the other, by two passes of one limiter. A test is a table, which is a text. Each of its lines is what one of
// the passes is asked, an arrow, and what is answered (`steps`).
mod known_counters;
mod limits;
mod refusals;
mod requests;
mod seen_values;
mod steps;
mod tables;
mod words;
