//! Calls that no run of a program shows yet, with values worked by hand: each public call of the libraries once where it
//! succeeds, and tables of values. What a run shows is in the case files of `worked_cases`.
#![tactic(auto)]

#[cfg(test)]
mod bounds;
#[cfg(test)]
mod build_lines;
#[cfg(test)]
mod build_steps;
#[cfg(test)]
mod builds;
#[cfg(test)]
mod built_trees;
#[cfg(test)]
mod compare;
#[cfg(test)]
mod element_builds;
#[cfg(test)]
mod elements;
#[cfg(test)]
mod expressions;
#[cfg(test)]
mod flex;
#[cfg(test)]
mod focus;
#[cfg(test)]
mod frame_steps;
#[cfg(test)]
mod groups;
#[cfg(test)]
mod handles;
#[cfg(test)]
mod json_texts;
#[cfg(test)]
mod laid;
#[cfg(test)]
mod layers;
#[cfg(test)]
mod list_frames;
#[cfg(test)]
mod lone_nodes;
#[cfg(test)]
mod matching;
#[cfg(test)]
mod members;
#[cfg(test)]
mod plugged;
#[cfg(test)]
mod readers;
#[cfg(test)]
mod records;
#[cfg(test)]
mod render_marks;
#[cfg(test)]
mod render_nodes;
#[cfg(test)]
mod render_steps;
#[cfg(test)]
mod scenes;
#[cfg(test)]
mod scopes;
#[cfg(test)]
mod screen_steps;
#[cfg(test)]
mod screens;
#[cfg(test)]
mod shelves;
#[cfg(test)]
mod slivers;
#[cfg(test)]
mod streams;
#[cfg(test)]
mod syncs;
#[cfg(test)]
mod templates;
#[cfg(test)]
mod texts;
#[cfg(test)]
mod trees;
#[cfg(test)]
mod tweens;
#[cfg(test)]
mod widgets;
#[cfg(test)]
mod wraps;
