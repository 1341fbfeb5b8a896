mod clocks;
mod directory;
mod file_shelf;
mod halts;
mod process;
mod program;
mod server;
mod synced;
