// The paths that are walked, what is told of their losses, and the lines that tell of a site.

mod losses;
mod paths;
mod site;
