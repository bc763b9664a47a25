//! The tests of exec_msg, exec_script, exec_goal, exec_task, exec_plan, exec_graph and exec_doc by their public calls. They are
//! in a crate of their own, because a crate with tests is proved twice: with them and without.
#![tactic(auto)]

#[cfg(test)]
mod doc;
#[cfg(test)]
mod goal;
#[cfg(test)]
mod graph;
#[cfg(test)]
mod msg;
#[cfg(test)]
mod script;
#[cfg(test)]
mod shared;
#[cfg(test)]
mod task;
#[cfg(test)]
mod upgrade;
