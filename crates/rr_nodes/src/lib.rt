//! Several nodes, and what is done at them: the laws of all their lines, pulls, snapshots and
//! fetches.
//!
//! A node is a replica, from when it is made or loaded, under an origin that is never used again,
//! whichever desks are opened over it. It has what it holds and all that it held before
//! (`specs/Nodes.antt`): what a reader has seen, a page and a snapshot are of a moment of a node.
//! Each deed is defined for two models (`specs/Models.antt`): in one a node holds cells, as the
//! program does, in the other all marks that reached it. That the two agree is the theorem
//! (`specs/Laws.antt`).
//!
//! The calls of keepers are deeds (`specs/Keepers.antt`, and for several desks `specs/Calls.antt`),
//! and so is a session by its bytes, whole or cut (`specs/Sessions.antt`). A journal has cells of
//! moments, so reading one, cut anywhere, twice and in any order, is taking cells, a deed for each;
//! and whoever took all that was written up to some moment holds all that was there then
//! (`specs/Journals.antt`, by the journal's bytes `specs/Replays.antt`, and by the calls of a node
//! that follows another `specs/Followers.antt`). `specs/Example.antt` has three nodes, with their
//! answers.
#![tactic(auto)]

pub mod laws;
