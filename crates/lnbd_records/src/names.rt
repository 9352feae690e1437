//! The standard's numbers and this client's limits by their names, once for all crates: constants, and laws that each is the number
//! of the definitions. No record is put or read here, and no number is judged.

ghost use Rattle.std.specs.Prelude.{◌≡◌, false};
ghost use Rattle.lnbd_records.specs.Flags.{flag_fixed_newstyle, flag_no_zeroes, flag_has_flags, flag_read_only, flag_send_flush, flag_send_fua};
ghost use Rattle.lnbd_records.specs.Flags.{flag_rotational, flag_send_trim, flag_send_write_zeroes, flag_send_df, flag_can_multi_conn};
ghost use Rattle.lnbd_records.specs.Flags.{flag_send_cache, flag_send_fast_zero, cmd_flag_fua, cmd_flag_no_hole, cmd_flag_df, cmd_flag_req_one};
ghost use Rattle.lnbd_records.specs.Flags.{cmd_flag_fast_zero, cmd_flag_payload_len, reply_flag_done, state_hole, state_zero};
ghost use Rattle.lnbd_records.specs.Handshake.{init_magic, option_magic, oldstyle_magic, option_reply_magic, hello_size, option_reply_head_size};
ghost use Rattle.lnbd_records.specs.Handshake.{export_name_reply_size, padding};
ghost use Rattle.lnbd_records.specs.Limits.{max_data, max_descriptors, max_text, max_other_error, max_faults, max_range, max_extended_range};
ghost use Rattle.lnbd_records.specs.Limits.{max_option_reply, max_listed, max_replies, max_passed, max_contexts, max_minimum_block};
ghost use Rattle.lnbd_records.specs.Options.{opt_export_name, opt_abort, opt_list, opt_info, opt_go, opt_structured_reply, opt_set_meta_context};
ghost use Rattle.lnbd_records.specs.Options.{opt_extended_headers, rep_ack, rep_server, rep_info, rep_meta_context, first_rep_error, err_unsup};
ghost use Rattle.lnbd_records.specs.Options.{err_invalid, err_unknown, info_export, info_name, info_description, info_block_size};
ghost use Rattle.lnbd_records.specs.Transmission.{request_magic, simple_reply_magic, structured_reply_magic, extended_request_magic};
ghost use Rattle.lnbd_records.specs.Transmission.{extended_reply_magic, type_write, type_disc, reply_type_none, reply_type_offset_data};
ghost use Rattle.lnbd_records.specs.Transmission.{reply_type_offset_hole, reply_type_block_status, reply_type_block_status_ext};
ghost use Rattle.lnbd_records.specs.Transmission.{first_reply_type_error, reply_type_error, reply_type_error_offset};

// Magics, by which a record is known (NBD protocol, "Fixed newstyle negotiation" to "Structured reply chunk message").

/// NBDMAGIC.
pub const INIT_MAGIC: u64 = 0x4e42444d41474943;

/// IHAVEOPT.
pub const OPTION_MAGIC: u64 = 0x49484156454f5054;

/// In the place of IHAVEOPT where the server speaks the oldstyle negotiation.
pub const OLDSTYLE_MAGIC: u64 = 0x0000420281861253;

pub const OPTION_REPLY_MAGIC: u64 = 0x0003e889045565a9;

pub const REQUEST_MAGIC: u32 = 0x25609513;

pub const SIMPLE_REPLY_MAGIC: u32 = 0x67446698;

pub const STRUCTURED_REPLY_MAGIC: u32 = 0x668e33ef;

pub const EXTENDED_REQUEST_MAGIC: u32 = 0x21e41c71;

pub const EXTENDED_REPLY_MAGIC: u32 = 0x6e8a278c;

// How many bytes records take, but for what their fields count.

pub const HELLO_SIZE: usize = 18;

/// An option reply up to its data.
pub const OPTION_REPLY_HEAD_SIZE: usize = 20;

/// A reply to EXPORT_NAME up to its padding.
pub const EXPORT_NAME_REPLY_SIZE: usize = 10;

/// What ends that reply unless NO_ZEROES is agreed.
pub const PADDING_SIZE: usize = 124;

// Options, the replies to them and what INFO tells (NBD protocol, "Option types" to "Information types").

pub const OPT_EXPORT_NAME: u32 = 1;

pub const OPT_ABORT: u32 = 2;

pub const OPT_LIST: u32 = 3;

pub const OPT_INFO: u32 = 6;

pub const OPT_GO: u32 = 7;

pub const OPT_STRUCTURED_REPLY: u32 = 8;

pub const OPT_SET_META_CONTEXT: u32 = 10;

pub const OPT_EXTENDED_HEADERS: u32 = 11;

pub const REP_ACK: u32 = 1;

pub const REP_SERVER: u32 = 2;

pub const REP_INFO: u32 = 3;

pub const REP_META_CONTEXT: u32 = 4;

/// From here on a reply is an error, whose code is what it has beyond.
pub const FIRST_REP_ERROR: u32 = 1 << 31;

/// The code of an option that the server doesn't know.
pub const ERR_UNSUP: u32 = 1;

/// The code of a request whose data isn't lawful.
pub const ERR_INVALID: u32 = 3;

/// The code of an export that isn't there.
pub const ERR_UNKNOWN: u32 = 6;

pub const INFO_EXPORT: u16 = 0;

pub const INFO_NAME: u16 = 1;

pub const INFO_DESCRIPTION: u16 = 2;

pub const INFO_BLOCK_SIZE: u16 = 3;

// Flags, each as its value (NBD protocol, "Handshake flags", "Transmission flags", "Command flags" and "Structured reply flags").

pub const FLAG_FIXED_NEWSTYLE: u16 = 1;

pub const FLAG_NO_ZEROES: u16 = 2;

pub const FLAG_HAS_FLAGS: u16 = 1;

pub const FLAG_READ_ONLY: u16 = 2;

pub const FLAG_SEND_FLUSH: u16 = 4;

pub const FLAG_SEND_FUA: u16 = 8;

pub const FLAG_ROTATIONAL: u16 = 16;

pub const FLAG_SEND_TRIM: u16 = 32;

pub const FLAG_SEND_WRITE_ZEROES: u16 = 64;

pub const FLAG_SEND_DF: u16 = 128;

pub const FLAG_CAN_MULTI_CONN: u16 = 256;

pub const FLAG_SEND_CACHE: u16 = 1024;

pub const FLAG_SEND_FAST_ZERO: u16 = 2048;

pub const CMD_FLAG_FUA: u16 = 1;

pub const CMD_FLAG_NO_HOLE: u16 = 2;

pub const CMD_FLAG_DF: u16 = 4;

pub const CMD_FLAG_REQ_ONE: u16 = 8;

pub const CMD_FLAG_FAST_ZERO: u16 = 16;

/// The data of a request follows it.
pub const CMD_FLAG_PAYLOAD_LEN: u16 = 32;

/// The last chunk of a reply.
pub const REPLY_FLAG_DONE: u16 = 1;

/// Of an extent of base:allocation: nothing is allocated there.
pub const STATE_HOLE: u64 = 1;

/// The same: it reads as zeros.
pub const STATE_ZERO: u64 = 2;

// The types of requests and of chunks (NBD protocol, "Request types" and "Structured reply types"). Bit 15 is set for errors.

pub const TYPE_WRITE: u16 = 1;

/// The request that ends a session.
pub const TYPE_DISC: u16 = 2;

pub const REPLY_TYPE_NONE: u16 = 0;

pub const REPLY_TYPE_OFFSET_DATA: u16 = 1;

pub const REPLY_TYPE_OFFSET_HOLE: u16 = 2;

pub const REPLY_TYPE_BLOCK_STATUS: u16 = 5;

pub const REPLY_TYPE_BLOCK_STATUS_EXT: u16 = 6;

pub const FIRST_REPLY_TYPE_ERROR: u16 = 0x8000;

pub const REPLY_TYPE_ERROR: u16 = 0x8001;

pub const REPLY_TYPE_ERROR_OFFSET: u16 = 0x8002;

// The limits of what is taken from a peer, and of what is asked of it.

/// The most bytes of a read, of a write, and of the data in one chunk.
pub const MAX_DATA: u32 = 33_554_432;

/// The most descriptors in one chunk.
pub const MAX_DESCRIPTORS: u64 = 1_048_576;

/// The longest message of an error.
pub const MAX_TEXT: u64 = 4_096;

/// The longest payload of an error of a type that isn't known.
pub const MAX_OTHER_ERROR: u64 = 65_536;

/// How many chunks of a command may be errors or have a content fault before its last.
pub const MAX_FAULTS: u64 = 1_024;

/// The longest range of a command without data: 2^32 - 1.
pub const MAX_RANGE: u64 = 4_294_967_295;

/// The same with extended headers: 2^63 - 1.
pub const MAX_EXTENDED_RANGE: u64 = 9_223_372_036_854_775_807;

/// The longest data of an option reply.
pub const MAX_OPTION_REPLY: u32 = 65_536;

/// How many exports a server may list.
pub const MAX_LISTED: u32 = 10_000;

/// How many replies another option may have before its last.
pub const MAX_REPLIES: u32 = 1_024;

/// How many bytes are passed over after an abort.
pub const MAX_PASSED: u32 = 65_536;

/// How many meta contexts may be asked for.
pub const MAX_CONTEXTS: u32 = 16;

/// The largest minimum of told block sizes that counts.
pub const MAX_MINIMUM_BLOCK: u32 = 65_536;

/// Magics are those of the definitions.
pub fn magics_are_defined()
    ensures init_magic { INIT_MAGIC ≡ init_magic }
    ensures option_magic { OPTION_MAGIC ≡ option_magic }
    ensures oldstyle_magic { OLDSTYLE_MAGIC ≡ oldstyle_magic }
    ensures option_reply_magic { OPTION_REPLY_MAGIC ≡ option_reply_magic }
    ensures request_magic { REQUEST_MAGIC ≡ request_magic }
    ensures simple_reply_magic { SIMPLE_REPLY_MAGIC ≡ simple_reply_magic }
    ensures structured_reply_magic { STRUCTURED_REPLY_MAGIC ≡ structured_reply_magic }
    ensures extended_request_magic { EXTENDED_REQUEST_MAGIC ≡ extended_request_magic }
    ensures extended_reply_magic { EXTENDED_REPLY_MAGIC ≡ extended_reply_magic }
{}

/// Sizes are those of the definitions.
pub fn sizes_are_defined()
    ensures hello_size { HELLO_SIZE ≡ hello_size }
    ensures option_reply_head_size { OPTION_REPLY_HEAD_SIZE ≡ option_reply_head_size }
    ensures export_name_reply_size { EXPORT_NAME_REPLY_SIZE ≡ export_name_reply_size }
    ensures padding_size { PADDING_SIZE ≡ padding false }
{}

/// The numbers of options and of what answers them are those of the definitions.
pub fn options_are_defined()
    ensures opt_export_name { OPT_EXPORT_NAME ≡ opt_export_name }
    ensures opt_abort { OPT_ABORT ≡ opt_abort }
    ensures opt_list { OPT_LIST ≡ opt_list }
    ensures opt_info { OPT_INFO ≡ opt_info }
    ensures opt_go { OPT_GO ≡ opt_go }
    ensures opt_structured_reply { OPT_STRUCTURED_REPLY ≡ opt_structured_reply }
    ensures opt_set_meta_context { OPT_SET_META_CONTEXT ≡ opt_set_meta_context }
    ensures opt_extended_headers { OPT_EXTENDED_HEADERS ≡ opt_extended_headers }
    ensures rep_ack { REP_ACK ≡ rep_ack }
    ensures rep_server { REP_SERVER ≡ rep_server }
    ensures rep_info { REP_INFO ≡ rep_info }
    ensures rep_meta_context { REP_META_CONTEXT ≡ rep_meta_context }
    ensures first_rep_error { FIRST_REP_ERROR ≡ first_rep_error }
    ensures err_unsup { ERR_UNSUP ≡ err_unsup }
    ensures err_invalid { ERR_INVALID ≡ err_invalid }
    ensures err_unknown { ERR_UNKNOWN ≡ err_unknown }
    ensures info_export { INFO_EXPORT ≡ info_export }
    ensures info_name { INFO_NAME ≡ info_name }
    ensures info_description { INFO_DESCRIPTION ≡ info_description }
    ensures info_block_size { INFO_BLOCK_SIZE ≡ info_block_size }
{}

/// Flags are those of the definitions.
pub fn flags_are_defined()
    ensures flag_fixed_newstyle { FLAG_FIXED_NEWSTYLE ≡ flag_fixed_newstyle }
    ensures flag_no_zeroes { FLAG_NO_ZEROES ≡ flag_no_zeroes }
    ensures flag_has_flags { FLAG_HAS_FLAGS ≡ flag_has_flags }
    ensures flag_read_only { FLAG_READ_ONLY ≡ flag_read_only }
    ensures flag_send_flush { FLAG_SEND_FLUSH ≡ flag_send_flush }
    ensures flag_send_fua { FLAG_SEND_FUA ≡ flag_send_fua }
    ensures flag_rotational { FLAG_ROTATIONAL ≡ flag_rotational }
    ensures flag_send_trim { FLAG_SEND_TRIM ≡ flag_send_trim }
    ensures flag_send_write_zeroes { FLAG_SEND_WRITE_ZEROES ≡ flag_send_write_zeroes }
    ensures flag_send_df { FLAG_SEND_DF ≡ flag_send_df }
    ensures flag_can_multi_conn { FLAG_CAN_MULTI_CONN ≡ flag_can_multi_conn }
    ensures flag_send_cache { FLAG_SEND_CACHE ≡ flag_send_cache }
    ensures flag_send_fast_zero { FLAG_SEND_FAST_ZERO ≡ flag_send_fast_zero }
    ensures cmd_flag_fua { CMD_FLAG_FUA ≡ cmd_flag_fua }
    ensures cmd_flag_no_hole { CMD_FLAG_NO_HOLE ≡ cmd_flag_no_hole }
    ensures cmd_flag_df { CMD_FLAG_DF ≡ cmd_flag_df }
    ensures cmd_flag_req_one { CMD_FLAG_REQ_ONE ≡ cmd_flag_req_one }
    ensures cmd_flag_fast_zero { CMD_FLAG_FAST_ZERO ≡ cmd_flag_fast_zero }
    ensures cmd_flag_payload_len { CMD_FLAG_PAYLOAD_LEN ≡ cmd_flag_payload_len }
    ensures reply_flag_done { REPLY_FLAG_DONE ≡ reply_flag_done }
    ensures state_hole { STATE_HOLE ≡ state_hole }
    ensures state_zero { STATE_ZERO ≡ state_zero }
{}

/// Types are those of the definitions.
pub fn types_are_defined()
    ensures type_write { TYPE_WRITE ≡ type_write }
    ensures type_disc { TYPE_DISC ≡ type_disc }
    ensures reply_type_none { REPLY_TYPE_NONE ≡ reply_type_none }
    ensures reply_type_offset_data { REPLY_TYPE_OFFSET_DATA ≡ reply_type_offset_data }
    ensures reply_type_offset_hole { REPLY_TYPE_OFFSET_HOLE ≡ reply_type_offset_hole }
    ensures reply_type_block_status { REPLY_TYPE_BLOCK_STATUS ≡ reply_type_block_status }
    ensures reply_type_block_status_ext { REPLY_TYPE_BLOCK_STATUS_EXT ≡ reply_type_block_status_ext }
    ensures first_reply_type_error { FIRST_REPLY_TYPE_ERROR ≡ first_reply_type_error }
    ensures reply_type_error { REPLY_TYPE_ERROR ≡ reply_type_error }
    ensures reply_type_error_offset { REPLY_TYPE_ERROR_OFFSET ≡ reply_type_error_offset }
{}

/// Limits are those of the definitions.
pub fn limits_are_defined()
    ensures max_data { MAX_DATA ≡ max_data }
    ensures max_descriptors { MAX_DESCRIPTORS ≡ max_descriptors }
    ensures max_text { MAX_TEXT ≡ max_text }
    ensures max_other_error { MAX_OTHER_ERROR ≡ max_other_error }
    ensures max_faults { MAX_FAULTS ≡ max_faults }
    ensures max_range { MAX_RANGE ≡ max_range }
    ensures max_extended_range { MAX_EXTENDED_RANGE ≡ max_extended_range }
    ensures max_option_reply { MAX_OPTION_REPLY ≡ max_option_reply }
    ensures max_listed { MAX_LISTED ≡ max_listed }
    ensures max_replies { MAX_REPLIES ≡ max_replies }
    ensures max_passed { MAX_PASSED ≡ max_passed }
    ensures max_contexts { MAX_CONTEXTS ≡ max_contexts }
    ensures max_minimum_block { MAX_MINIMUM_BLOCK ≡ max_minimum_block }
{}
