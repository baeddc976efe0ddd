mod blocks;
mod image;
mod summed_disk;
mod trail;
