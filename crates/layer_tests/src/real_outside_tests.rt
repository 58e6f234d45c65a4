//! The real outside: links over loopback, real files, the system's shell and clock.

mod clock;
mod disk;
mod link;
mod prober;
mod spawner;
