//! The cases of scans: names, each with the text that it stands for, and lines of what a scan gives and leaves.

/// A name may stand in the text of an earlier one. What stands for a file has no closing brace, so that scripts can follow.
pub(crate) const NAMES: &str = r#"<A> {"id":"A","layout":<LAYOUT>,"segments":<BYTES>
<B> {"id":"B","layout":<LAYOUT>,"segments":<BYTES>
<C> {"id":"C","layout":<LAYOUT>,"segments":<BYTES>
<CUT> {"id":"A","layout":<LAYOUT>,"segments":<CUT_BYTES>
<CUT_B> {"id":"B","layout":<LAYOUT>,"segments":<CUT_BYTES>
<PARTS> {"id":"A","layout":<PARTS_LAYOUT>,"segments":[<BYTES_0>,[1,"0a00000014000000"],[2,"1e000000"]]
<CUT_PARTS> {"id":"A","layout":<PARTS_LAYOUT>,"segments":[<BYTES_0>,[1,"0a00000014000000"],[2,"1e0000"]]
<BYTES> [<BYTES_0>,<BYTES_1>]
<CUT_BYTES> [[0,"0100000002000000030000"],<BYTES_1>]
<LAYOUT> {"struct":[<LEAF>,{"leaf":[[1,3]],"rows":3}],"rows":3}
<PARTS_LAYOUT> {"struct":[<LEAF>,{"leaf":[[1,2],[2,1]],"rows":3}],"rows":3}
<LEAF> {"leaf":[[0,3]],"rows":3}
<BYTES_0> [0,"010000000200000003000000"]
<BYTES_1> [1,"0a000000140000001e000000"]
<COLUMNS> {"struct":[["a","i32"],["b","i32"]]}
<ALL> {"projection":"$"}
<OF_A> {"projection":{"select":[["a"],"$"]}}
<OF_B> {"projection":{"select":[["b"],"$"]}}
<FOUR> {"projection":"$","limit":4}
<a> {"get":["a","$"]}
<b> {"get":["b","$"]}
<WAITS> {"pending":[0,1,2,3,4,5,6,7,8,9,10,11,12,13,14,15,16,17,18,19,20,21,22,23,24,25,26,27,28,29,30,31,32,33,34,35,36,37,38,39,40,41,42,43,44,45,46,47,48,49]}
<L8> {"list":{"list":{"list":{"list":{"list":{"list":{"list":{"list":
<E8> }}}}}}}}
<FOUR_ROWS> <THREE> 1: 0 {1, 10};
<THREE> 0: 0 1 2 {1, 10} {2, 20} {3, 30};"#;

/// Three files of which four rows are wanted, and what comes of them.
pub(crate) const FOUR_ROWS: (&str, &str) = (
    r#"{"dtype":<COLUMNS>,"files":[<A>},<B>},<C>}],"request":<FOUR>}"#,
    "<FOUR_ROWS> | 1: 0 1; 1: 0 1; 0:;",
);

/// Lines: what is shown, `::`, a manifest, `=>`, and what a scan of its files gives and leaves, as far as is told here.
pub(crate) const SCANS: &str = r##"# What is read, and what of it is asked for.
one column is read and no other :: {"dtype":<COLUMNS>,"files":[<A>}],"request":<OF_A>} => 0: 0 1 2 {1} {2} {3}; | 1: 0; | 1 0 0 1
a column of flags :: {"dtype":{"struct":[["f","bool"]]},"files":[{"id":"A","layout":{"struct":[{"leaf":[[0,2]],"rows":2}],"rows":2},"segments":[[0,"0100"]]}],"request":<ALL>} => 0: 0 1 {true} {false}; | 1: 0; | 1 0 0 1
a column of flags in bits :: {"dtype":{"struct":[["f","bool"]]},"files":[{"id":"A","layout":{"struct":[{"leaf":[[0,2]],"rows":2,"spelling":2}],"rows":2},"segments":[[0,"01"]]}],"request":<ALL>} => 0: 0 1 {true} {false}; | 1: 0; | 1 0 0 1
a flag of 2 :: {"dtype":{"struct":[["f","bool"]]},"files":[{"id":"A","layout":{"struct":[{"leaf":[[0,2]],"rows":2}],"rows":2},"segments":[[0,"0102"]]}],"request":<ALL>} => Corrupt { file: 0, segment: SegmentId(0) } | 1: 0; | SegmentId(0) of file 0 is missing or damaged
a field of a null struct :: {"dtype":{"struct":[["a","i32"]],"nullable":true},"files":[{"id":"N","layout":{"struct":[{"leaf":[[2,3]],"rows":3},<LEAF>],"rows":3},"segments":[<BYTES_0>,[2,"010001"]]}],"request":{"projection":<a>}} => 0: 0 1 2 1 null 3; | 1: 0 2; | 2 0 0 2
lists that are included :: {"dtype":{"list":"i32"},"files":[{"id":"L","layout":{"list":[{"leaf":[[1,2],[2,3],[3,4]],"rows":9},{"leaf":[[0,5]],"rows":5}],"offsets":"u32","rows":4},"segments":[[0,"0000000002000000020000000500000009000000"],[1,"0a0000000b000000"],[2,"0c0000000d0000000e000000"],[3,"0f000000100000001100000012000000"]]}],"request":{"projection":"$","include":[1,2]}} => 0: 1 []; 0: 2 [12, 13, 14]; | 1: 0 2;
whether lists are null :: {"dtype":{"struct":[["l",{"list":"i32","nullable":true}]]},"files":[{"id":"L","layout":{"struct":[{"list":[{"leaf":[[1,9]],"rows":9},{"leaf":[[0,4]],"rows":4},{"leaf":[[2,3]],"rows":3}],"offsets":"u32","rows":3}],"rows":3},"segments":[[0,"00000000020000000200000005000000"],[2,"010001"]]}],"request":{"projection":{"is_null":{"get":["l","$"]}}}} => 0: 0 1 2 false true false; | 1: 2; | 1 0 0 1
lengths of lists :: {"dtype":{"struct":[["l",{"list":"i32"}]]},"files":[{"id":"L","layout":{"struct":[{"list":[{"leaf":[[1,9]],"rows":9},{"leaf":[[0,4]],"rows":4}],"offsets":"u32","rows":3}],"rows":3},"segments":[[0,"00000000020000000200000005000000"]]}],"request":{"projection":{"list_length":{"get":["l","$"]}}}} => 0: 0 1 2 2 0 3; | 1: 0; | 1 0 0 1
a literal over nullable lists :: {"dtype":{"list":"i32","nullable":true},"files":[{"id":"L","layout":{"list":[{"leaf":[[1,3]],"rows":3},<LEAF>,{"leaf":[[2,2]],"rows":2}],"offsets":"u32","rows":2},"segments":[[2,"0101"]]}],"request":{"projection":{"lit":7,"type":"u8"}}} => 0: 0 1 7 7; | 1: 2; | 1 0 0 1
row numbers in a filter, over two files and a range :: {"dtype":<COLUMNS>,"files":[<A>},<A>}],"request":{"projection":<a>,"filter":{"ge":["#row_idx",{"lit":1,"type":"u64"}]},"range":[0,2]}} => 0: 1 2; 1: 1 2; | 1: 0; 1:; | 2 1 0 1
an included row past the file :: {"dtype":<COLUMNS>,"files":[<A>}],"request":{"projection":<a>,"include":[2,18446744073709551615]}} => 0: 2 3; | 1: 0; | 1 0 0 1
numbers, texts and lists of texts :: {"dtype":{"struct":[["id","u64"],["name","utf8?"],["tags",{"list":"utf8"}]]},"files":[{"id":"T","layout":{"struct":[{"leaf":[[0,2]],"rows":2},{"leaf":[[1,2]],"rows":2},{"list":[{"leaf":[[2,2]],"rows":2},{"leaf":[[3,3]],"rows":3}],"offsets":"u32","rows":2}],"rows":2},"segments":[[0,"07000000000000000900000000000000"],[1,"01000300000041646100000000"],[2,"010000007802000000797a"],[3,"000000000200000002000000"]]}],"request":{"projection":"$","filter":{"is_not_null":{"get":["name","$"]}}}} => 0: 0 {7, "Ada", ["x", "yz"]}; | 1: 0 1 2 3;
a list of no rows with one offset :: {"dtype":{"list":"i32"},"files":[{"id":"L","layout":{"list":[{"leaf":[],"rows":0},{"leaf":[[0,1]],"rows":1}],"offsets":"u32","rows":0},"segments":[]}],"request":<ALL>} => | 1:; | 0 0 0 0
a file without fields and with many rows :: {"dtype":{"struct":[]},"files":[{"id":"E","layout":{"struct":[],"rows":9223372036854775808},"segments":[]}],"request":{"projection":"$","include":[0]}} => 0: 0 {}; | 1:; | 0 0 0 0
a skipped file :: {"dtype":<COLUMNS>,"files":[<A>,"skip":true,"source":{"fail":[0]}}],"request":<ALL>} => | 1:; | 0 0 0 0
no files :: {"dtype":<COLUMNS>,"files":[],"request":<ALL>} => | | 0 0 0 0
a limit of no rows, where the opener fails :: {"dtype":<COLUMNS>,"files":[<A>,"open":{"fail":[0]}}],"request":{"projection":"$","limit":0}} => | 0:; | 0 0 0 0
a limit over three files: the third is not opened :: {"dtype":<COLUMNS>,"files":[<A>},<B>},<C>}],"request":<FOUR>} => <FOUR_ROWS> | 1: 0 1; 1: 0 1; 0:; | 4 0 0 4
# What splits share, and what a cache has.
splits share a segment, and the next scan finds all in the cache :: {"dtype":<COLUMNS>,"files":[<PARTS>}],"request":<ALL>,"workers":2} then {"dtype":<COLUMNS>,"files":[<PARTS>}],"request":<ALL>,"workers":2} => 0: 0 1 {1, 10} {2, 20}; 0: 2 {3, 30}; then 0: 0 1 {1, 10} {2, 20}; 0: 2 {3, 30}; | 2: 0 1 2; | 4 0 1 3, 4 4 0 0
the same over a cache that counts uses :: {"dtype":<COLUMNS>,"files":[<PARTS>}],"request":<ALL>,"workers":2,"cache":{"bytes":1048576,"entries":1024,"eviction":"use_counts"}} then {"dtype":<COLUMNS>,"files":[<PARTS>}],"request":<ALL>,"workers":2,"cache":{"bytes":1048576,"entries":1024,"eviction":"use_counts"}} => 0: 0 1 {1, 10} {2, 20}; 0: 2 {3, 30}; then 0: 0 1 {1, 10} {2, 20}; 0: 2 {3, 30}; | 2: 0 1 2;
a second scan asks nothing :: {"dtype":<COLUMNS>,"files":[<A>}],"request":<ALL>} then {"dtype":<COLUMNS>,"files":[<A>}],"request":<OF_A>} => <THREE> then 0: 0 1 2 {1} {2} {3}; | 2: 0 1; | 2 0 0 2, 1 1 0 0
a cache that counts uses changes no row :: {"dtype":<COLUMNS>,"files":[<A>}],"request":<OF_A>,"cache":{"bytes":1048576,"entries":1024,"eviction":"use_counts"}} => 0: 0 1 2 {1} {2} {3}; | 1: 0; | 1 0 0 1
a segment under two leaves is wanted once :: {"dtype":<COLUMNS>,"files":[{"id":"A","layout":{"struct":[<LEAF>,<LEAF>],"rows":3},"segments":[<BYTES_0>]}],"request":<ALL>} => 0: 0 1 2 {1, 1} {2, 2} {3, 3}; | 1: 0; | 1 0 0 1
two files of one name: the second asks nothing :: {"dtype":<COLUMNS>,"files":[<A>},<A>}],"request":<ALL>} => <THREE> 1: 0 1 2 {1, 10} {2, 20} {3, 30}; | 1: 0 1; 1:; | 4 2 0 2
a segment of another name is no hit :: {"dtype":<COLUMNS>,"files":[{"id":"B","layout":<LAYOUT>,"segments":[[0,"090909090909090909090909"]]},<A>}],"request":<OF_A>} => 0: 0 1 2 {151587081} {151587081} {151587081}; 1: 0 1 2 {1} {2} {3}; | 1: 0; 1: 0; | 2 0 0 2
# Requests that are refused: no opener is polled.
no such field :: {"dtype":<COLUMNS>,"files":[<A>,"open":{"fail":[0]},"source":{"fail":[0]}}],"request":{"projection":{"select":[["z"],"$"]}}} => Bind(NoField) | 0:;
a field that is not there :: {"dtype":<COLUMNS>,"files":[<A>,"open":{"fail":[0]},"source":{"fail":[0]}}],"request":{"projection":{"get":["z","$"]}}} => Bind(NoField) | 0:;
a filter that is no Bool :: {"dtype":<COLUMNS>,"files":[<A>,"open":{"fail":[0]},"source":{"fail":[0]}}],"request":{"projection":"$","filter":<a>}} => Bind(NotBool) | 0:;
a name twice :: {"dtype":{"struct":[["a","i32"],["a","i32"]]},"files":[<A>,"open":{"fail":[0]},"source":{"fail":[0]}}],"request":<ALL>} => Bind(RepeatedName) | 0:;
a range of partitions :: {"dtype":<COLUMNS>,"files":[<A>,"open":{"fail":[0]},"source":{"fail":[0]}}],"request":{"projection":"$","partitions":[0,1]}} => Partitions | 0:;
a reversed range :: {"dtype":<COLUMNS>,"files":[<A>,"open":{"fail":[0]},"source":{"fail":[0]}}],"request":{"projection":"$","range":[2,1]}} => RowRange(Reversed) | 0:;
no workers, before a field that is not there :: {"dtype":<COLUMNS>,"files":[<A>,"open":{"fail":[0]},"source":{"fail":[0]}}],"request":{"projection":{"get":["z","$"]}},"workers":0} => Concurrency | 0:;
lists 63 deep :: {"dtype":<L8><L8><L8><L8><L8><L8><L8>{"list":{"list":{"list":{"list":{"list":{"list":{"list":"i32"}}}}}}}<E8><E8><E8><E8><E8><E8><E8>,"files":[],"request":<ALL>} => | | 0 0 0 0
lists 64 deep :: {"dtype":<L8><L8><L8><L8><L8><L8><L8><L8>"i32"<E8><E8><E8><E8><E8><E8><E8><E8>,"files":[],"request":<ALL>} => Bind(Deep)
# Segments that are damaged or missing, offsets that are bad, and layouts that are ill-formed.
a segment cut by a byte :: {"dtype":<COLUMNS>,"files":[<CUT>}],"request":<ALL>} => Corrupt { file: 0, segment: SegmentId(0) }
the other column :: {"dtype":<COLUMNS>,"files":[<CUT>}],"request":<OF_B>} => 0: 0 1 2 {10} {20} {30}; | 1: 1;
a segment that is not there, within the limit :: {"dtype":<COLUMNS>,"files":[{"id":"A","layout":<LAYOUT>,"segments":[<BYTES_0>]}],"request":{"projection":"$","filter":{"ge":[<a>,{"lit":1,"type":"i32"}]},"limit":2}} => Corrupt { file: 0, segment: SegmentId(1) }
damage of a file behind the limit :: {"dtype":<COLUMNS>,"files":[<A>},<CUT_B>},<C>}],"request":{"projection":"$","limit":3},"workers":2} => <THREE>
damage of a file before the limit :: {"dtype":<COLUMNS>,"files":[<A>},<CUT_B>},<C>}],"request":<FOUR>,"workers":2} => Corrupt { file: 1, segment: SegmentId(0) }
an offset below zero :: {"dtype":{"list":"i32"},"files":[{"id":"L","layout":{"list":[{"leaf":[],"rows":0},{"leaf":[[0,2]],"rows":2}],"offsets":"i32","rows":1},"segments":[[0,"ffffffff00000000"]]}],"request":<ALL>} => Corrupt { file: 0, segment: SegmentId(0) }
an offset past the elements :: {"dtype":{"list":"i32"},"files":[{"id":"L","layout":{"list":[{"leaf":[[1,3]],"rows":3},{"leaf":[[0,2]],"rows":2}],"offsets":"u32","rows":1},"segments":[[0,"0000000004000000"],[1,"010000000200000003000000"]]}],"request":{"projection":{"list_length":"$"}}} => Corrupt { file: 0, segment: SegmentId(0) }
whether that list is null :: {"dtype":{"list":"i32"},"files":[{"id":"L","layout":{"list":[{"leaf":[[1,3]],"rows":3},{"leaf":[[0,2]],"rows":2}],"offsets":"u32","rows":1},"segments":[[0,"0000000004000000"],[1,"010000000200000003000000"]]}],"request":{"projection":{"is_null":"$"}}} => 0: 0 false; | 1:;
offsets that fall :: {"dtype":{"list":"i32"},"files":[{"id":"L","layout":{"list":[{"leaf":[[1,3]],"rows":3},<LEAF>],"offsets":"u32","rows":2},"segments":[[0,"000000000300000002000000"],[1,"010000000200000003000000"]]}],"request":<ALL>} => Corrupt { file: 0, segment: SegmentId(0) }
a text that is not UTF-8 :: {"dtype":{"struct":[["s","utf8"]]},"files":[{"id":"T","layout":{"struct":[{"leaf":[[0,1]],"rows":1}],"rows":1},"segments":[[0,"01000000ff"]]}],"request":<ALL>} => Corrupt { file: 0, segment: SegmentId(0) }
a text that ends too soon :: {"dtype":{"struct":[["s","utf8"]]},"files":[{"id":"T","layout":{"struct":[{"leaf":[[0,1]],"rows":1}],"rows":1},"segments":[[0,"05000000616263"]]}],"request":<ALL>} => Corrupt { file: 0, segment: SegmentId(0) }
a child too few :: {"dtype":<COLUMNS>,"files":[{"id":"A","layout":{"struct":[<LEAF>],"rows":3},"segments":<BYTES>}],"request":<ALL>} => Layout { file: 0, fault: ChildCount } | 1:;
rows past the greatest u64 in a leaf :: {"dtype":<COLUMNS>,"files":[{"id":"A","layout":{"struct":[{"leaf":[[0,18446744073709551615],[2,1]],"rows":3},{"leaf":[[1,3]],"rows":3}],"rows":3},"segments":<BYTES>}],"request":<ALL>} => Layout { file: 0, fault: RowSum } | 1:;
a child of fewer rows :: {"dtype":<COLUMNS>,"files":[{"id":"A","layout":{"struct":[<LEAF>,{"leaf":[[1,2]],"rows":2}],"rows":3},"segments":<BYTES>}],"request":<ALL>} => Layout { file: 0, fault: ChildRows } | 1:;
an offset too few :: {"dtype":{"list":"i32"},"files":[{"id":"L","layout":{"list":[{"leaf":[[1,3]],"rows":3},{"leaf":[[0,2]],"rows":2}],"offsets":"u32","rows":2},"segments":[[0,"0000000003000000"],[1,"010000000200000003000000"]]}],"request":<ALL>} => Layout { file: 0, fault: Offsets } | 1:;
no offset at all :: {"dtype":{"list":"i32"},"files":[{"id":"L","layout":{"list":[{"leaf":[],"rows":0},{"leaf":[],"rows":0}],"offsets":"u32","rows":0},"segments":[]}],"request":<ALL>} => Layout { file: 0, fault: Offsets } | 1:;
damage of a split behind the limit :: {"dtype":<COLUMNS>,"files":[<CUT_PARTS>}],"request":{"projection":"$","limit":2},"workers":2} => 0: 0 1 {1, 10} {2, 20};
damage of a split that has no included row :: {"dtype":<COLUMNS>,"files":[<CUT_PARTS>}],"request":{"projection":"$","include":[0]},"workers":2} => 0: 0 {1, 10}; | 1: 0 1;
damage of a split within the limit :: {"dtype":<COLUMNS>,"files":[<CUT_PARTS>}],"request":{"projection":"$","limit":3},"workers":2} => Corrupt { file: 0, segment: SegmentId(2) }
damage beside a null row :: {"dtype":{"struct":[["a","i32"]],"nullable":true},"files":[{"id":"N","layout":{"struct":[{"leaf":[[2,3]],"rows":3},<LEAF>],"rows":3},"segments":[[0,"0100000002000000030000"],[2,"010001"]]}],"request":{"projection":<a>}} => Corrupt { file: 0, segment: SegmentId(0) }
damage of a column that a conjunct keeps unread :: {"dtype":<COLUMNS>,"files":[{"id":"A","layout":<LAYOUT>,"segments":[<BYTES_0>]}],"request":{"projection":"$","filter":{"and":[{"gt":[<a>,{"lit":100,"type":"i32"}]},{"eq":[<b>,{"lit":10,"type":"i32"}]}]}}} => | 1: 0;
a source that fails at its second poll :: {"dtype":<COLUMNS>,"files":[<A>,"source":{"fail":[1]}}],"request":<ALL>} => Source { file: 0, segment: SegmentId(1) } | 1: 0 1;
a limit of no rows :: {"dtype":<COLUMNS>,"files":[<CUT>}],"request":{"projection":"$","limit":0}} => | 0:;
a cut segment before a source that fails :: {"dtype":<COLUMNS>,"files":[<CUT>,"open":{"fail":[0]},"source":{"fail":[0]}}],"request":<OF_A>} => Opener { file: 0 } | 1:;
a source that fails over a cut segment :: {"dtype":<COLUMNS>,"files":[<CUT>,"source":{"fail":[0]}}],"request":<OF_A>} => Source { file: 0, segment: SegmentId(0) } | 1: 0;
a cut segment, of one column :: {"dtype":<COLUMNS>,"files":[<CUT>}],"request":<OF_A>} => Corrupt { file: 0, segment: SegmentId(0) } | 1: 0;
a file of another dtype :: {"dtype":<COLUMNS>,"files":[{"id":"A","dtype":{"struct":[["a","i64"],["b","i32"]]},"layout":<LAYOUT>,"segments":<BYTES>}],"request":<ALL>} => DTypeMismatch { file: 0 } | 1:;
a range past the rows :: {"dtype":<COLUMNS>,"files":[<A>}],"request":{"projection":"$","range":[0,4]}} => RowRange(Past { file: 0 }) | 1:;
more rows than a u64 counts :: {"dtype":{"struct":[]},"files":[{"id":"E","layout":{"struct":[],"rows":9223372036854775808},"segments":[]},{"id":"E","layout":{"struct":[],"rows":9223372036854775808},"segments":[]}],"request":{"projection":"$","include":[0]}} => TooManyRows { file: 1 } | 1:; 1:;
a sum that is past its type :: {"dtype":{"struct":[["a","i8"]]},"files":[{"id":"B","layout":{"struct":[{"leaf":[[0,2]],"rows":2}],"rows":2},"segments":[[0,"641b"]]}],"request":{"projection":{"add":[<a>,<a>]}}} => Overflow { file: 0 } | 1: 0;
a sum that is past its type in a filter :: {"dtype":{"struct":[["a","i8"]]},"files":[{"id":"B","layout":{"struct":[{"leaf":[[0,2]],"rows":2}],"rows":2},"segments":[[0,"641b"]]}],"request":{"projection":<a>,"filter":{"or":[{"ge":[<a>,{"lit":0,"type":"i8"}]},{"gt":[{"add":[<a>,<a>]},{"lit":0,"type":"i8"}]}]}}} => Overflow { file: 0 } | 1: 0;
a sum of an i8 and a u8 :: {"dtype":{"struct":[["a","i8"]]},"files":[{"id":"B","layout":{"struct":[{"leaf":[[0,2]],"rows":2}],"rows":2},"segments":[[0,"641b"]]}],"request":{"projection":{"add":[<a>,{"lit":1,"type":"u8"}]}}} => Bind(Operands) | 0:;
# One poll that fails, each in turn, of three files of which four rows are wanted.
poll 0 of opener 0 :: {"dtype":<COLUMNS>,"files":[<A>,"open":{"fail":[0]}},<B>},<C>}],"request":<FOUR>} => Opener { file: 0 } | 1:; 0:; 0:;
poll 1 of opener 0 :: {"dtype":<COLUMNS>,"files":[<A>,"open":{"fail":[1]}},<B>},<C>}],"request":<FOUR>} => <FOUR_ROWS> | 1: 0 1; 1: 0 1; 0:;
poll 0 of opener 1 :: {"dtype":<COLUMNS>,"files":[<A>},<B>,"open":{"fail":[0]}},<C>}],"request":<FOUR>} => Opener { file: 1 } | 1: 0 1; 1:; 0:;
poll 1 of opener 1 :: {"dtype":<COLUMNS>,"files":[<A>},<B>,"open":{"fail":[1]}},<C>}],"request":<FOUR>} => <FOUR_ROWS> | 1: 0 1; 1: 0 1; 0:;
poll 0 of opener 2 :: {"dtype":<COLUMNS>,"files":[<A>},<B>},<C>,"open":{"fail":[0]}}],"request":<FOUR>} => <FOUR_ROWS> | 1: 0 1; 1: 0 1; 0:;
poll 1 of opener 2 :: {"dtype":<COLUMNS>,"files":[<A>},<B>},<C>,"open":{"fail":[1]}}],"request":<FOUR>} => <FOUR_ROWS> | 1: 0 1; 1: 0 1; 0:;
poll 0 of source 0 :: {"dtype":<COLUMNS>,"files":[<A>,"source":{"fail":[0]}},<B>},<C>}],"request":<FOUR>} => Source { file: 0, segment: SegmentId(0) } | 1: 0 1; 0:; 0:;
poll 1 of source 0 :: {"dtype":<COLUMNS>,"files":[<A>,"source":{"fail":[1]}},<B>},<C>}],"request":<FOUR>} => Source { file: 0, segment: SegmentId(1) } | 1: 0 1; 0:; 0:;
poll 2 of source 0 :: {"dtype":<COLUMNS>,"files":[<A>,"source":{"fail":[2]}},<B>},<C>}],"request":<FOUR>} => <FOUR_ROWS> | 1: 0 1; 1: 0 1; 0:;
poll 0 of source 1 :: {"dtype":<COLUMNS>,"files":[<A>},<B>,"source":{"fail":[0]}},<C>}],"request":<FOUR>} => Source { file: 1, segment: SegmentId(0) } | 1: 0 1; 1: 0 1; 0:;
poll 1 of source 1 :: {"dtype":<COLUMNS>,"files":[<A>},<B>,"source":{"fail":[1]}},<C>}],"request":<FOUR>} => Source { file: 1, segment: SegmentId(1) } | 1: 0 1; 1: 0 1; 0:;
poll 2 of source 1 :: {"dtype":<COLUMNS>,"files":[<A>},<B>,"source":{"fail":[2]}},<C>}],"request":<FOUR>} => <FOUR_ROWS> | 1: 0 1; 1: 0 1; 0:;
poll 0 of source 2 :: {"dtype":<COLUMNS>,"files":[<A>},<B>},<C>,"source":{"fail":[0]}}],"request":<FOUR>} => <FOUR_ROWS> | 1: 0 1; 1: 0 1; 0:;
poll 0 of source 0, of one name :: {"dtype":<COLUMNS>,"files":[<A>,"source":{"fail":[0]}},<A>},<A>}],"request":<FOUR>} => Source { file: 0, segment: SegmentId(0) } | 1: 0 1; 0:; 0:;
poll 1 of source 0, of one name :: {"dtype":<COLUMNS>,"files":[<A>,"source":{"fail":[1]}},<A>},<A>}],"request":<FOUR>} => Source { file: 0, segment: SegmentId(1) } | 1: 0 1; 0:; 0:;
poll 2 of source 0, of one name :: {"dtype":<COLUMNS>,"files":[<A>,"source":{"fail":[2]}},<A>},<A>}],"request":<FOUR>} => <FOUR_ROWS> | 1: 0 1; 1:; 0:;
poll 0 of source 1, of one name :: {"dtype":<COLUMNS>,"files":[<A>},<A>,"source":{"fail":[0]}},<A>}],"request":<FOUR>} => <FOUR_ROWS> | 1: 0 1; 1:; 0:;
poll 0 of source 2, of one name :: {"dtype":<COLUMNS>,"files":[<A>},<A>},<A>,"source":{"fail":[0]}}],"request":<FOUR>} => <FOUR_ROWS> | 1: 0 1; 1:; 0:;
every opener and every source waits :: {"dtype":<COLUMNS>,"files":[<A>,"open":<WAITS>,"source":<WAITS>},<B>,"open":<WAITS>,"source":<WAITS>},<C>,"open":<WAITS>,"source":<WAITS>}],"request":<FOUR>} => <FOUR_ROWS> | 51: 0 1; 51: 0 1; 0:;
a fault says its file and its segment :: {"dtype":<COLUMNS>,"files":[<A>},<B>},{"id":"D","layout":{"struct":[{"leaf":[[7,3]],"rows":3},{"leaf":[[1,3]],"rows":3}],"rows":3},"segments":[[7,"010000000200000003000000"],<BYTES_1>],"source":{"fail":[0]}}],"request":<OF_A>} => Source { file: 2, segment: SegmentId(7) } | 1: 0; 1: 0; 1: 7; | the source of file 2 failed at SegmentId(7)"##;
