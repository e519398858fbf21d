mod crowd;
mod lock;
mod looks;
