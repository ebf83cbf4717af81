//! Laws of lives: what one process leaves on its disks is one world, in which the next process may begin.
//!
//! When a process ends, each disk leaves an image by itself: with its node's last batch or without it. These laws say that
//! the images of all disks belong together. Some world at rest gives every node what its image does, and nothing that was
//! promised is lost on the way there. So what is promised of keys and lane bytes holds from one life to the next.
#![tactic(auto)]

mod course_laws;
mod folder_laws;
mod kept_laws;
mod life_laws;
mod world_laws;

pub use course_laws::{law_headline_has_one_world, law_run_leaves_one_world};
pub use folder_laws::{law_folder_lives_go_on, law_same_views_last};
pub use kept_laws::{law_kept_table, law_kept_world_begins, law_left_views_belong};
pub use life_laws::law_lives_go_on;
pub use world_laws::{law_images_give_one_world, law_rest_goes_on, law_rest_lasts};
