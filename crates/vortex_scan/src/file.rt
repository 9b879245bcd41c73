//! Files that are read by places, with the opener and the source of each, and files that are written. After the Rust's
//! `vortex-file`.

pub use scan_disk::{
    BytesAt, DiskFault, FileOpener, FileSource, Footer, MemoryFile, Place, Places, ReadFault,
    read_footer,
};
pub use scan_disk_writer::{
    BytesOut, MemoryOut, NewFile, OutFault, WriteFault, file_of, write_batches, write_file,
    write_rows,
};
pub use scan_encode::{RowsFault, Segments, WriteOptions, encode_batches, encode_rows};
