//! Capture files, and captured scripts, against what was written down by hand.
mod files;
mod samples;
mod scripts;
