// Worked scripts, played by the program over readers and writers in memory.
mod groups;
mod polling;
mod scripts;
mod settling;
