mod gathering;
mod held;
mod lost;
mod means;
mod stays;
