//! Linked images, as plain data. `specs/` has the definitions: what a linker needs of machine code with
//! tables, how many bytes of an image it takes, and the image itself, part by part.
#![tactic(auto)]
