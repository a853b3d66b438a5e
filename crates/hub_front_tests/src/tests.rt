mod long_lines;
mod parsing;
mod relay_sizes;
mod relays;
mod replies;
mod scripts;
mod serving;
mod writing;
