//! The tags of the fields that a session sends, or names in a Reject. FIX 4.4 volume 6.

/// BeginSeqNo.
pub(crate) const BEGIN_SEQ_NO: u32 = 7;

/// EndSeqNo.
pub(crate) const END_SEQ_NO: u32 = 16;

/// MsgSeqNum.
pub(crate) const MSG_SEQ_NUM: u32 = 34;

/// NewSeqNo.
pub(crate) const NEW_SEQ_NO: u32 = 36;

/// PossDupFlag.
pub(crate) const POSS_DUP_FLAG: u32 = 43;

/// RefSeqNum.
pub(crate) const REF_SEQ_NUM: u32 = 45;

/// SenderCompID.
pub(crate) const SENDER_COMP_ID: u32 = 49;

/// SendingTime.
pub(crate) const SENDING_TIME: u32 = 52;

/// TargetCompID.
pub(crate) const TARGET_COMP_ID: u32 = 56;

/// TransactTime.
pub(crate) const TRANSACT_TIME: u32 = 60;

/// AllocID.
pub(crate) const ALLOC_ID: u32 = 70;

/// AllocStatus.
pub(crate) const ALLOC_STATUS: u32 = 87;

/// AllocRejCode.
pub(crate) const ALLOC_REJ_CODE: u32 = 88;

/// EncryptMethod.
pub(crate) const ENCRYPT_METHOD: u32 = 98;

/// HeartBtInt.
pub(crate) const HEART_BT_INT: u32 = 108;

/// TestReqID.
pub(crate) const TEST_REQ_ID: u32 = 112;

/// OrigSendingTime.
pub(crate) const ORIG_SENDING_TIME: u32 = 122;

/// GapFillFlag.
pub(crate) const GAP_FILL_FLAG: u32 = 123;

/// ResetSeqNumFlag.
pub(crate) const RESET_SEQ_NUM_FLAG: u32 = 141;

/// RefTagID.
pub(crate) const REF_TAG_ID: u32 = 371;

/// RefMsgType.
pub(crate) const REF_MSG_TYPE: u32 = 372;

/// SessionRejectReason.
pub(crate) const SESSION_REJECT_REASON: u32 = 373;

/// BusinessRejectReason.
pub(crate) const BUSINESS_REJECT_REASON: u32 = 380;
