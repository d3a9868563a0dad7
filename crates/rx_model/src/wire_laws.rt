ghost use Rattle.std.specs.Prelude.{◌≡◌, negsuc};
ghost use Rattle.rx_model.specs.declared.wire.TheConstants.{DATA, ACK, BUSY};
ghost use Rattle.rx_model.specs.declared.wire.TheConstants.{ABORT, ACKALL, CHALLENGE};
ghost use Rattle.rx_model.specs.declared.wire.TheConstants.{RESPONSE};
ghost use Rattle.rx_model.specs.declared.wire.TheConstants.{CLIENT_INITIATED, REQUEST_ACK, LAST_PACKET};
ghost use Rattle.rx_model.specs.declared.wire.TheConstants.{JUMBO};
ghost use Rattle.rx_model.specs.declared.wire.TheConstants.{ACK_REQUESTED, ACK_DUPLICATE, ACK_OUT_OF_SEQUENCE};
ghost use Rattle.rx_model.specs.declared.wire.TheConstants.{ACK_EXCEEDS_WINDOW, ACK_NOSPACE, ACK_PING};
ghost use Rattle.rx_model.specs.declared.wire.TheConstants.{ACK_PING_RESPONSE, ACK_DELAY};
ghost use Rattle.rx_model.specs.declared.wire.TheConstants.{HEADER_BYTES, PAYLOAD_BYTES, DATAGRAM_BYTES};
ghost use Rattle.rx_model.specs.declared.wire.TheConstants.{PIECE_BYTES, SECURITY_BYTES, NONCE_BYTES};
ghost use Rattle.rx_model.specs.declared.wire.TheConstants.{LAST_SEQ, DEFAULT_WINDOW, MIN_WINDOW};
ghost use Rattle.rx_model.specs.declared.wire.TheConstants.{MAX_WINDOW, FIRST_PEER_WINDOW, FIRST_CWND};
ghost use Rattle.rx_model.specs.declared.wire.TheConstants.{MIN_SSTHRESH};
ghost use Rattle.rx_model.specs.declared.wire.TheConstants.{ACK_DELAY_MS, FIRST_RTO_MS, MIN_RTO_MS};
ghost use Rattle.rx_model.specs.declared.wire.TheConstants.{PROMPT_ACK_DELAY_MS};
ghost use Rattle.rx_model.specs.declared.wire.TheConstants.{MAX_RTO_MS, MAX_ROUND_TRIP_MS, PING_MS};
ghost use Rattle.rx_model.specs.declared.wire.TheConstants.{SILENCE_MS, IDLE_MS, LIFETIME_MS};
ghost use Rattle.rx_model.specs.declared.wire.TheConstants.{SKEW_MS};
ghost use Rattle.rx_model.specs.declared.wire.TheConstants.{DEFAULT_CONNS, DEFAULT_CALLS, DEFAULT_SLOTS};
ghost use Rattle.rx_model.specs.declared.wire.TheConstants.{STRAYS};
ghost use Rattle.rx_model.specs.declared.wire.TheConstants.{NULL_INDEX, TOKEN_INDEX};
ghost use Rattle.rx_model.specs.declared.wire.TheConstants.{RX_CALL_DEAD, RX_INVALID_OPERATION, RX_PROTOCOL_ERROR};

/// Each number of the wire, as a literal: those of `rx.h` and `rx_packet.h`, and those of this profile.
pub fn wire_numbers()
    ensures types { (DATA ≡ 1) × (ACK ≡ 2) × (BUSY ≡ 3)
        × (ABORT ≡ 4) × (ACKALL ≡ 5) × (CHALLENGE ≡ 6)
        × (RESPONSE ≡ 7) }
    ensures flags { (CLIENT_INITIATED ≡ 1) × (REQUEST_ACK ≡ 2) × (LAST_PACKET ≡ 4)
        × (JUMBO ≡ 32) }
    ensures reasons { (ACK_REQUESTED ≡ 1) × (ACK_DUPLICATE ≡ 2) × (ACK_OUT_OF_SEQUENCE ≡ 3)
        × (ACK_EXCEEDS_WINDOW ≡ 4) × (ACK_NOSPACE ≡ 5) × (ACK_PING ≡ 6)
        × (ACK_PING_RESPONSE ≡ 7) × (ACK_DELAY ≡ 8) }
    ensures sizes { (HEADER_BYTES ≡ 28) × (PAYLOAD_BYTES ≡ 1444) × (DATAGRAM_BYTES ≡ 1472)
        × (PIECE_BYTES ≡ 1412) × (SECURITY_BYTES ≡ 64) × (NONCE_BYTES ≡ 8) }
    ensures windows { (LAST_SEQ ≡ 4294967294) × (DEFAULT_WINDOW ≡ 32) × (MIN_WINDOW ≡ 32)
        × (MAX_WINDOW ≡ 255) × (FIRST_PEER_WINDOW ≡ 32) × (FIRST_CWND ≡ 2)
        × (MIN_SSTHRESH ≡ 2) }
    ensures times { (ACK_DELAY_MS ≡ 100) × (FIRST_RTO_MS ≡ 1000) × (MIN_RTO_MS ≡ 350)
        × (MAX_RTO_MS ≡ 4000) × (MAX_ROUND_TRIP_MS ≡ 60000) × (PING_MS ≡ 2000)
        × (SILENCE_MS ≡ 12000) × (IDLE_MS ≡ 600000) × (LIFETIME_MS ≡ 120000)
        × (SKEW_MS ≡ 60000) × (PROMPT_ACK_DELAY_MS ≡ 3) }
    ensures limits { (DEFAULT_CONNS ≡ 1024) × (DEFAULT_CALLS ≡ 64) × (DEFAULT_SLOTS ≡ 2048)
        × (STRAYS ≡ 64) }
    ensures security { (NULL_INDEX ≡ 0) × (TOKEN_INDEX ≡ 200) }
    ensures codes { (RX_CALL_DEAD ≡ negsuc 0) × (RX_INVALID_OPERATION ≡ negsuc 1) × (RX_PROTOCOL_ERROR ≡ negsuc 4) }
{}
