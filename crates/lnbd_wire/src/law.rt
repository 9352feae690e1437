//! Laws of the heads and the hello. Each function says one and does nothing.

ghost use Rattle.std.specs.Prelude.{◌≡◌, ◌<◌, ◌^◌, ◌++◌, List, ℕ};
ghost use Rattle.lnbd_records.specs.Numbers.{row, AllFit};
ghost use Rattle.lnbd_records.specs.Fronts.{IsFront};
ghost use Rattle.lnbd_records.specs.Handshake.{hello};
ghost use Rattle.lnbd_records.specs.Transmission.{
  simple_reply_magic,
  request_magic,
  structured_reply_magic,
  extended_request_magic,
  extended_reply_magic,
};
ghost use Rattle.lnbd_wire.specs.declared.simple.SimpleHead.{SimpleHead};
ghost use Rattle.lnbd_wire.specs.declared.request.RequestHead.{RequestHead};
ghost use Rattle.lnbd_wire.specs.declared.chunk.ChunkHead.{ChunkHead};
ghost use Rattle.lnbd_wire.specs.declared.extended_request.ExtRequest.{ExtRequest};
ghost use Rattle.lnbd_wire.specs.declared.extended_chunk.ExtHead.{ExtHead};
ghost use Rattle.lnbd_wire.specs.Heads.{
  simple_fields,
  request_fields,
  chunk_fields,
  extended_request_fields,
  extended_chunk_fields,
  front_of,
};
ghost use Rattle.lnbd_wire.specs.Hello.{IsHelloRead};

use crate::hello::HelloRead;
use crate::read::Read;

/// What was put is read again, whatever follows it.
pub fn read_again()
    ensures simple { (head : SimpleHead) (rest : List ℕ) → AllFit (simple_fields head)
        → IsFront simple_fields 4 simple_reply_magic 16 (row (simple_fields head) ++ rest) (front_of (Read.Value head)) }
    ensures request { (head : RequestHead) (rest : List ℕ) → AllFit (request_fields head)
        → IsFront request_fields 4 request_magic 28 (row (request_fields head) ++ rest) (front_of (Read.Value head)) }
    ensures chunk { (head : ChunkHead) (rest : List ℕ) → AllFit (chunk_fields head)
        → IsFront chunk_fields 4 structured_reply_magic 20 (row (chunk_fields head) ++ rest) (front_of (Read.Value head)) }
    ensures extended_request { (head : ExtRequest) (rest : List ℕ) → AllFit (extended_request_fields head)
        → IsFront extended_request_fields 4 extended_request_magic 32 (row (extended_request_fields head) ++ rest) (front_of (Read.Value head)) }
    ensures extended_chunk { (head : ExtHead) (rest : List ℕ) → AllFit (extended_chunk_fields head)
        → IsFront extended_chunk_fields 4 extended_reply_magic 32 (row (extended_chunk_fields head) ++ rest) (front_of (Read.Value head)) }
    ensures hello { (flags : ℕ) (rest : List ℕ) → flags < 2 ^ 16
        → IsHelloRead (row (hello flags) ++ rest) (HelloRead.Value flags) }
{}
