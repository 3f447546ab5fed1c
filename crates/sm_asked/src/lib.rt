// What all commands share: words over model files, the model that these come to, answers and their statuses, lines and limits.
#![tactic(auto)]

mod file;
mod files;
mod idl;
mod lines;
mod loading;
mod status;
mod stop;
mod words;

pub use lines::{Shown, event_lines, limit_line};
pub use loading::{load_file, load_models};
pub use sm_load;
pub use status::Status;
pub use stop::{CommandStop, past, refused, refused_pattern};
pub use words::{is_word, model_words, models_alone};
