mod fakes;
mod program;
mod world;
